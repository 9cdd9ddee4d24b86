// Settle.
ghost use Rattle.std.specs.Prelude.{◌≡◌};
ghost use Rattle.protocol.specs.Rules.{answered, settle_of};
ghost use Rattle.rules.specs.Tested.{told};

use crate::holding::{drop_entry, raise};
use crate::testing::{found, must, ruled};
use protocol::{Answer, Boxes, Ruling};
use world::{Entry, Execution, Roster, recipients, same_digest};

// The settling, or the answer of the first test that fails: 4, 5, 6, 2, 9.
#[tactic(auto, using(search::proofs::Laws::found_in), unfolding(protocol::specs::Rules::settle_of, protocol::specs::Rules::settle_found, protocol::specs::Rules::settle_to, search::specs::Tests::must))]
fn try_settle(roster: Roster, server: u8, place: u8, b: &mut Boxes) -> Result<Answer, Answer>
    ensures { answered (told result) b.new ≡ settle_of roster server place b.old }
{
    let k = found(roster, server, place, Entry::TWO, b)?;
    let x = b.executions.table[k];
    must(x.number != Execution::UNNUMBERED, Answer::Wait)?;
    if !same_digest(b.request.digest, x.digest) {
        return Ok(drop_entry(place, b));
    }
    let sending = b.hold.at(place).sending;
    if sending.sender != server {
        let needed = recipients(roster, x.mask, server);
        must(needed <= b.outgoing.room(), Answer::NoRoom)?;
        b.outgoing = b.outgoing.send(roster, x.mask, server, sending);
    }
    raise(place, Entry::THREE, x.number, b);
    Ok(Answer::Done)
}

// A correct server takes over the number of an entry at stage two, and forwards it.
pub fn settle(roster: Roster, server: u8, place: u8, b: Boxes) -> Ruling
    ensures { result ≡ settle_of roster server place b }
{
    ruled(b, |b| try_settle(roster, server, place, b))
}
