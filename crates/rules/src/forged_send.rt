// Forge send.
ghost use Rattle.std.specs.Prelude.{◌≡◌};
ghost use Rattle.protocol.specs.Rules.{answered, forge_send_of};
ghost use Rattle.rules.specs.Tested.{told};

use crate::orderer::make;
use crate::testing::{must, ruled};
use fips180::Digest;
use protocol::{Answer, Boxes, Ruling};
use world::{Executions, Roster};

// The forged execution, or the answer of the first test that fails: 4, 5, 13, 10.
#[tactic(auto, unfolding(protocol::specs::Rules::forge_send_of, search::specs::Tests::must))]
fn try_forge_send(
    roster: Roster,
    server: u8,
    id: u16,
    digest: [u8; Digest::BYTES],
    b: &mut Boxes,
) -> Result<Answer, Answer>
    ensures { answered (told result) b.new ≡ forge_send_of roster server id digest b.old }
{
    must(roster.member(server), Answer::BadServer)?;
    must(roster.is_faulty(server), Answer::WrongSide)?;
    must(b.executions.find(id).is_none(), Answer::Recall)?;
    let made = usize::from(b.executions.count);
    must(made < Executions::MOST, Answer::Quota)?;
    make(roster, server, id, digest, b);
    Ok(Answer::Done)
}

// An execution of its own, with any id and any digest.
pub fn forge_send(
    roster: Roster,
    server: u8,
    id: u16,
    digest: [u8; Digest::BYTES],
    b: Boxes,
) -> Ruling
    ensures { result ≡ forge_send_of roster server id digest b }
{
    ruled(b, |b| try_forge_send(roster, server, id, digest, b))
}
