// Request: a client's request is stored.
ghost use Rattle.std.specs.Prelude.{◌≡◌, ◌<◌, OnOk};
ghost use Rattle.world.specs.Sizes.{requests_most};
ghost use Rattle.protocol.specs.Rules.{request_from, request_of};
ghost use Rattle.rules.specs.Tested.{requested};

use crate::testing::must;
use protocol::{Answer, Requested};
use world::{Request, Requests, Roster};

// The request that the fields make, with its digest. The four fields stay apart, as in the definition `request_of`.
#[tactic(auto, using(digest::proofs::Short::short_ok))]
fn digested(client: u8, serial: u32, seals: u8, command: [u8; Request::COMMAND]) -> Request
    ensures { result ≡ request_from client serial seals command }
{
    let bare = Request {
        serial,
        client,
        seals,
        command,
        digest: [0; fips180::Digest::BYTES],
    };
    let bytes = bare.bytes();
    let digest = digest::sha256(&bytes).unwrap();
    Request {
        serial,
        client,
        seals,
        command,
        digest,
    }
}

// The request that is stored, or the answer of the first test that fails: a seal bit at n or above, a stored digest, no
// slot left. It only reads the requests: where it changed a copy of them, as the other rules do of the boxes, a request
// took a third more instructions.
#[tactic(auto, unfolding(protocol::specs::Rules::request_of, search::specs::Tests::must))]
fn try_request(
    roster: Roster,
    client: u8,
    serial: u32,
    seals: u8,
    command: [u8; Request::COMMAND],
    q: &Requests,
) -> Result<Request, Answer>
    ensures rule { requested q.now result ≡ request_of roster client serial seals command q.now }
    ensures room { OnOk result (q.now.count < requests_most) }
{
    must(!roster.strays(seals), Answer::BadField)?;
    let new = digested(client, serial, seals, command);
    must(!q.knows(new.digest), Answer::SameDigest)?;
    must(usize::from(q.count) < Requests::MOST, Answer::NoRoom)?;
    Ok(new)
}

// A client's request is stored.
pub fn request(
    roster: Roster,
    requests: Requests,
    client: u8,
    serial: u32,
    seals: u8,
    command: [u8; Request::COMMAND],
) -> Requested
    ensures { result ≡ request_of roster client serial seals command requests }
{
    let new = match try_request(roster, client, serial, seals, command, &requests) {
        Ok(new) => new,
        Err(answer) => return Requested { answer, requests },
    };
    let mut q = requests;
    q.slots[usize::from(q.count)] = new;
    q.count += 1;
    Requested {
        answer: Answer::Done,
        requests: q,
    }
}
