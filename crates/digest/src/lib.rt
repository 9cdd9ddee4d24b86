// SHA-256 of FIPS 180-4, as document 01's "The digest" asks for it: messages of 0 to 55 bytes.
#![tactic(auto)]

ghost use Rattle.std.specs.Prelude.{◌≡◌};
ghost use Rattle.fips180.specs.Digest.{digest_answer};
ghost use Rattle.fips180.specs.Sha256.{padded, blocks, hashed};

mod block; // §5.1, §5.2: the padded message and its blocks

use block::{block_count, block_of};
use fips180::{Digest, DigestLong, State};

// §6.2.2: the hash value after the last block of a message of any length.
#[tactic(auto, unfolding(fips180::specs::Sha256::hashed))]
fn hash(s: &[u8]) -> State
    ensures { result ≡ hashed (padded s.now) (blocks (padded s.now)) }
{
    let mut v = compression::start();
    for k in 0..block_count(s) {
        v = compression::compress(v, block_of(s, k));
    }
    v
}

// The digest of a message of at most `MOST` bytes; a longer one is refused.
#[tactic(auto, unfolding(fips180::specs::Digest::digest_answer, fips180::specs::Sha256::digest_of))]
pub fn sha256(s: &[u8]) -> Result<[u8; Digest::BYTES], DigestLong>
    ensures { result ≡ digest_answer s.now }
{
    if Digest::MOST < s.len() {
        return Err(DigestLong);
    }
    Ok(compression::bytes(hash(s)))
}
