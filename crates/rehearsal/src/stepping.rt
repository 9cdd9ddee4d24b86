// A single step.
ghost use Rattle.std.specs.Prelude.{◌≡◌};
ghost use Rattle.format.specs.Records.{asked_from};
ghost use Rattle.format.specs.declared.kinds.Kind.TheVariants.{Request, Act as Acting};
ghost use Rattle.protocol.specs.Answers.{answer_code};
ghost use Rattle.protocol.specs.Steps.{ends, step_of};
ghost use Rattle.protocol.specs.Runs.{public_step, step_told};

use crate::boxing::{act, store, touch_by};
use format::{Act, Kind, Read, Refusal};
use protocol::{Answer, Boxes, Stepped};
use schedule::{byte_at, read_at};
use world::{World, seat};

// The request of a record with this body, on the whole world.
#[tactic(auto, unfolding(protocol::specs::Steps::step_of))]
fn store_in(w: &mut World, body: &[u8]) -> Answer
    ensures { ends (answer_code result) w.new ≡ step_of w.old (asked_from Request body.now 0) }
{
    let stored = store(body, w.roster, w.requests);
    w.requests = stored.requests;
    stored.answer
}

// The act of a record with this body, on the whole world: the boxes that it touches are taken out and put back.
#[tactic(auto, using(crate::proofs::Going::act_turn))]
fn act_in(w: &mut World, a: Act, body: &[u8]) -> Answer
    ensures { ends (answer_code result) w.new ≡ step_of w.old (asked_from (Acting a) body.now 0) }
{
    let x = byte_at(body, 0);
    let y = byte_at(body, 1);
    let i = seat(x);
    let t = touch_by(a, x, y, w.outgoing[i].at(y), w.holds[i].at(y));
    let boxes = Boxes {
        numbered: w.numbered,
        stored: w.requests.count,
        request: w.requests.slots[t.slot],
        executions: w.executions[t.sender],
        outgoing: w.outgoing[t.server],
        hold: w.holds[t.holder],
        delivered: w.delivered[t.server],
    };
    let ruling = act(a, body, w.roster, boxes);
    let after = ruling.boxes;
    w.numbered = after.numbered;
    w.executions[t.sender] = after.executions;
    w.outgoing[t.server] = after.outgoing;
    w.holds[t.holder] = after.hold;
    w.delivered[t.server] = after.delivered;
    ruling.answer
}

// The step of a record of this kind and body, on the whole world.
pub(crate) fn step_in(w: &mut World, kind: Kind, body: &[u8]) -> Answer
    ensures { ends (answer_code result) w.new ≡ step_of w.old (asked_from kind body.now 0) }
{
    match kind {
        Kind::Request => store_in(w, body),
        Kind::Act(a) => act_in(w, a, body),
    }
}

// The step of one record, from a sound world; bytes after the record are ignored.
#[tactic(auto, using(format::proofs::Reader::known, crate::proofs::Public::one_record), unfolding(protocol::specs::Runs::public_step, protocol::specs::Runs::public_step_by, search::specs::Tests::must))]
pub fn step(w: World, s: &[u8]) -> Result<Stepped, Refusal>
    ensures { step_told w result ≡ public_step w s.now }
{
    if !soundness::sound(w) {
        return Err(Refusal::BadWorld);
    }
    let read = read_at(s, 0);
    let Read::Record { kind, start, .. } = read else {
        let Read::Refused(why) = read else {
            return Err(Refusal::Cut);
        };
        return Err(why);
    };
    let mut world = w;
    let answer = step_in(&mut world, kind, &s[start..]);
    Ok(Stepped { answer, world })
}
