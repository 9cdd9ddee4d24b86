// Arrive.
ghost use Rattle.std.specs.Prelude.{◌≡◌};
ghost use Rattle.protocol.specs.Rules.{answered, arrive_of};
ghost use Rattle.rules.specs.Tested.{told};

use crate::testing::{must, ruled};
use protocol::{Answer, Boxes, Ruling};
use world::{Entry, Roster};

// The arrival, or the answer of the first test that fails: 4, 6, 9.
#[tactic(auto, unfolding(protocol::specs::Rules::arrive_of, search::specs::Tests::must))]
fn try_arrive(roster: Roster, origin: u8, place: u8, b: &mut Boxes) -> Result<Answer, Answer>
    ensures { answered (told result) b.new ≡ arrive_of roster origin place b.old }
{
    must(roster.member(origin), Answer::BadServer)?;
    let p = b.outgoing.at(place);
    must(p.there, Answer::NoSuch)?;
    if roster.is_faulty(p.to) | b.hold.holds(p.sending) {
        b.outgoing = b.outgoing.clear(place);
        return Ok(Answer::Dropped);
    }
    must(b.hold.has_room(), Answer::NoRoom)?;
    b.outgoing = b.outgoing.clear(place);
    b.hold = b.hold.keep(Entry::new(Entry::ONE, p.sending, 0));
    Ok(Answer::Done)
}

// A packet of an origin reaches its recipient.
pub fn arrive(roster: Roster, origin: u8, place: u8, b: Boxes) -> Ruling
    ensures { result ≡ arrive_of roster origin place b }
{
    ruled(b, |b| try_arrive(roster, origin, place, b))
}
