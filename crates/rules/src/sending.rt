// Multicast.
ghost use Rattle.std.specs.Prelude.{◌≡◌};
ghost use Rattle.protocol.specs.Rules.{answered, roomy, multicast_of};
ghost use Rattle.rules.specs.Tested.{told};

use crate::orderer::make;
use crate::testing::{correct, must, ruled};
use protocol::{Answer, Boxes, Ruling};
use world::{Entry, Executions, Roster, Sending, has, recipients};

// No server is left out of a multicast's recipients but the sender.
const NOBODY: u8 = 0;

// Whether the recipients' packets and the server's own entry have places.
fn has_room(roster: Roster, server: u8, b: &Boxes) -> bool
    ensures { result ≡ roomy roster server b.now }
{
    (recipients(roster, NOBODY, server) <= b.outgoing.room()) & b.hold.has_room()
}

// The multicast, or the answer of the first test that fails: 4, 5, 6, 3, 10, 9. It makes the execution, keeps the
// server's own entry, and sends a packet to each other server.
#[tactic(auto, unfolding(protocol::specs::Rules::multicast_of, protocol::specs::Rules::multicast_done, protocol::specs::Rules::made, search::specs::Tests::must))]
fn try_multicast(roster: Roster, server: u8, slot: u8, b: &mut Boxes) -> Result<Answer, Answer>
    ensures { answered (told result) b.new ≡ multicast_of roster server slot b.old }
{
    correct(roster, server)?;
    must(slot < b.stored, Answer::NoSuch)?;
    must(has(b.request.seals, server), Answer::Dismissed)?;
    let made = b.executions.count;
    must(usize::from(made) < Executions::MOST, Answer::Quota)?;
    must(has_room(roster, server, b), Answer::NoRoom)?;
    let id = u16::from(made) + 1;
    let sending = Sending {
        id,
        sender: server,
        slot,
    };
    make(roster, server, id, b.request.digest, b);
    b.hold = b.hold.keep(Entry::new(Entry::TWO, sending, 0));
    b.outgoing = b.outgoing.send(roster, NOBODY, server, sending);
    Ok(Answer::Done)
}

// A correct server sends a request that it has a good seal for.
pub fn multicast(roster: Roster, server: u8, slot: u8, b: Boxes) -> Ruling
    ensures { result ≡ multicast_of roster server slot b }
{
    ruled(b, |b| try_multicast(roster, server, slot, b))
}
