// Forge packet.
ghost use Rattle.std.specs.Prelude.{◌≡◌};
ghost use Rattle.protocol.specs.Rules.{answered, forge_packet_of};
ghost use Rattle.rules.specs.Tested.{told};

use crate::testing::{must, ruled};
use protocol::{Answer, Boxes, Ruling};
use world::{Packet, Roster, Sending};

// The forged packet, or the answer of the first test that fails: 4 of any of three, 5, 6, 9.
#[tactic(auto, unfolding(protocol::specs::Rules::forge_packet_of, search::specs::Tests::must))]
fn try_forge_packet(
    roster: Roster,
    from: u8,
    to: u8,
    sending: Sending,
    b: &mut Boxes,
) -> Result<Answer, Answer>
    ensures { answered (told result) b.new
        ≡ forge_packet_of roster from to sending.sender sending.id sending.slot b.old }
{
    let members = roster.member(from) & roster.member(to) & roster.member(sending.sender);
    must(members, Answer::BadServer)?;
    must(roster.is_faulty(from), Answer::WrongSide)?;
    must(sending.slot < b.stored, Answer::NoSuch)?;
    must(b.outgoing.free().is_some(), Answer::NoRoom)?;
    b.outgoing = b.outgoing.post(Packet::new(to, sending));
    Ok(Answer::Done)
}

// A packet of any content, which may claim any sender.
pub fn forge_packet(
    roster: Roster,
    from: u8,
    to: u8,
    sender: u8,
    id: u16,
    slot: u8,
    b: Boxes,
) -> Ruling
    ensures { result ≡ forge_packet_of roster from to sender id slot b }
{
    let sending = Sending { id, sender, slot };
    ruled(b, |b| try_forge_packet(roster, from, to, sending, b))
}
