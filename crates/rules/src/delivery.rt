// Deliver.
ghost use Rattle.std.specs.Prelude.{◌≡◌};
ghost use Rattle.protocol.specs.Rules.{answered, deliver_of};
ghost use Rattle.rules.specs.Tested.{told};

use crate::testing::{correct, ruled};
use protocol::{Answer, Boxes, Ruling};
use world::{Entry, Roster};

// The delivery, or the answer of the first test that fails: 4, 5, 2.
#[tactic(auto, using(search::proofs::Laws::found_in), unfolding(protocol::specs::Rules::deliver_of, protocol::specs::Rules::deliver_found, search::specs::Tests::must))]
fn try_deliver(roster: Roster, server: u8, b: &mut Boxes) -> Result<Answer, Answer>
    ensures { answered (told result) b.new ≡ deliver_of roster server b.old }
{
    correct(roster, server)?;
    let k = b.hold.ready(b.delivered.next()).ok_or(Answer::Wait)?;
    b.delivered = b.delivered.append(b.hold.places[k].sending);
    b.hold = b.hold.put(k, Entry::free());
    Ok(Answer::Done)
}

// A correct server delivers the entry that has its next number.
pub fn deliver(roster: Roster, server: u8, b: Boxes) -> Ruling
    ensures { result ≡ deliver_of roster server b }
{
    ruled(b, |b| try_deliver(roster, server, b))
}
