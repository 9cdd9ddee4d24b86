// Propose.
ghost use Rattle.std.specs.Prelude.{◌≡◌};
ghost use Rattle.protocol.specs.Rules.{answered, propose_of};
ghost use Rattle.rules.specs.Tested.{told};

use crate::holding::{drop_entry, raise};
use crate::orderer::record;
use crate::testing::{found, ruled};
use protocol::{Answer, Boxes, Ruling};
use world::{Entry, Roster, has, same_digest};

// The proposal, or the answer of the first test that fails: 4, 5, 6, 2.
#[tactic(auto, using(search::proofs::Laws::found_in), unfolding(protocol::specs::Rules::propose_of, protocol::specs::Rules::propose_found, protocol::specs::Rules::propose_to, search::specs::Tests::must))]
fn try_propose(roster: Roster, server: u8, place: u8, b: &mut Boxes) -> Result<Answer, Answer>
    ensures { answered (told result) b.new ≡ propose_of roster server place b.old }
{
    let k = found(roster, server, place, Entry::ONE, b)?;
    let x = b.executions.table[k];
    if has(x.called, server) {
        return Ok(drop_entry(place, b));
    }
    if !has(b.request.seals, server) {
        raise(place, Entry::TWO, 0, b);
        return Ok(Answer::Done);
    }
    if !same_digest(b.request.digest, x.digest) {
        return Ok(drop_entry(place, b));
    }
    raise(place, Entry::TWO, 0, b);
    record(roster, server, k, b);
    Ok(Answer::Done)
}

// A correct server tells the orderer of an entry at stage one.
pub fn propose(roster: Roster, server: u8, place: u8, b: Boxes) -> Ruling
    ensures { result ≡ propose_of roster server place b }
{
    ruled(b, |b| try_propose(roster, server, place, b))
}
