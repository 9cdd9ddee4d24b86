// Forge receive.
ghost use Rattle.std.specs.Prelude.{◌≡◌};
ghost use Rattle.protocol.specs.Rules.{answered, forge_receive_of};
ghost use Rattle.rules.specs.Tested.{told};

use crate::orderer::record;
use crate::testing::{must, ruled};
use fips180::Digest;
use protocol::{Answer, Boxes, Ruling};
use world::{Roster, has, same_digest};

// The forged call, or the answer of the first test that fails: 4 of either, 5, 11, 13, 12.
#[tactic(auto, using(search::proofs::Laws::found_in), unfolding(protocol::specs::Rules::forge_receive_of, protocol::specs::Rules::forge_receive_found, protocol::specs::Rules::forge_receive_to, search::specs::Tests::must))]
fn try_forge_receive(
    roster: Roster,
    server: u8,
    sender: u8,
    id: u16,
    digest: [u8; Digest::BYTES],
    b: &mut Boxes,
) -> Result<Answer, Answer>
    ensures { answered (told result) b.new ≡ forge_receive_of roster server sender id digest b.old }
{
    let members = roster.member(server) & roster.member(sender);
    must(members, Answer::BadServer)?;
    must(roster.is_faulty(server), Answer::WrongSide)?;
    let k = b.executions.find(id).ok_or(Answer::Unknown)?;
    let x = b.executions.table[k];
    must(!has(x.called, server), Answer::Recall)?;
    must(same_digest(x.digest, digest), Answer::WrongDigest)?;
    record(roster, server, k, b);
    Ok(Answer::Done)
}

// A call at any execution, with any digest.
pub fn forge_receive(
    roster: Roster,
    server: u8,
    sender: u8,
    id: u16,
    digest: [u8; Digest::BYTES],
    b: Boxes,
) -> Ruling
    ensures { result ≡ forge_receive_of roster server sender id digest b }
{
    ruled(
        b,
        |b| try_forge_receive(roster, server, sender, id, digest, b),
    )
}
