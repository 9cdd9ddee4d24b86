// The stored requests of a sound world.
#![tactic(auto)]

ghost use Rattle.std.specs.Prelude.{◌≡◌, ℕ, ◌≤◌};
ghost use Rattle.fips180.specs.Sha256.{digest_of};
ghost use Rattle.search.specs.Search.{every};
ghost use Rattle.world.specs.Requests.{request_at, request_bytes, same_digest};
ghost use Rattle.world.specs.Sizes.{requests_most};
ghost use Rattle.protocol.specs.Sound.{stored_sound, slot_sound, new_digest, requests_sound};

use sound_names::{keys_differ, used_below, zero_request};
use world::{Request, Requests, Roster};

// Whether the digest is that of the request.
#[tactic(auto, using(digest::proofs::Short::short_ok))]
fn own_digest(q: Request) -> bool
    ensures { result ≡ same_digest q.digest (digest_of (request_bytes q)) }
{
    let bytes = q.bytes();
    let digest = digest::sha256(&bytes).unwrap();
    q.has_digest(digest)
}

// Whether a stored request has no seal at n or above, and its own digest.
#[tactic(auto, unfolding(protocol::specs::Sound::stored_sound))]
fn stored_sound(roster: Roster, q: Request) -> bool
    ensures { result ≡ stored_sound roster q }
{
    !roster.strays(q.seals) & own_digest(q)
}

// Whether every slot is sound, stored or not.
fn slots_sound(roster: Roster, q: &Requests) -> bool
    ensures { result ≡ every (λ (k : ℕ). slot_sound roster q.now.count k (request_at q.now k)) requests_most }
{
    let stored = usize::from(q.count);
    used_below(
        &q.slots,
        stored,
        |_, x| stored_sound(roster, *x),
        |x| zero_request(*x),
    )
}

// Whether the digests of the stored requests differ from each other.
fn digests_differ(q: &Requests) -> bool
    requires { q.now.count ≤ requests_most }
    ensures { result ≡ every (λ (k : ℕ). new_digest q.now k) q.now.count }
{
    let (stored, _) = q.slots.split_at(usize::from(q.count));
    keys_differ(stored, |a, b| a.has_digest(b.digest))
}

// Whether the requests are sound.
#[tactic(auto, unfolding(protocol::specs::Sound::requests_sound))]
pub fn requests_sound(roster: Roster, q: &Requests) -> bool
    ensures { result ≡ requests_sound roster q.now }
{
    if Requests::MOST < usize::from(q.count) {
        return false;
    }
    slots_sound(roster, q) & digests_differ(q)
}
