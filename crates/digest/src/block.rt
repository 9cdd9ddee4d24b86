// The padded message, in blocks of 512 bits (FIPS 180-4, §5.1.1 and §5.2.1).
ghost use Rattle.std.specs.Prelude.{◌≡◌, ◌<◌, length, get_or};
ghost use Rattle.fips180.specs.Sha256.{padded, blocks, block_of};

use fips180::Block;

// The bytes of the padding that every message has: the mark and the length.
const TAIL: usize = 9;

// How many blocks the message is padded to.
#[tactic(auto, using(crate::proofs::Padding::padding))]
pub(crate) fn block_count(s: &[u8]) -> usize
    ensures { result ≡ blocks (padded s.now) }
{
    (s.len() + TAIL).div_ceil(Block::BYTES)
}

// The block k of the padded message.
#[tactic(auto, using(crate::proofs::Padding::padding))]
pub(crate) fn block_of(s: &[u8], k: usize) -> Block
    requires { k < blocks (padded s.now) }
    ensures { result.bytes ≡ block_of (padded s.now) k }
{
    let mut b = [0u8; Block::BYTES];
    for j in 0..Block::BYTES {
        b[j] = padded_byte(s, k * Block::BYTES + j);
    }
    Block { bytes: b }
}

// The byte p of the padded message: of the message, the mark, the zeros or the length in bits.
#[tactic(auto, using(crate::proofs::Padding::padding))]
fn padded_byte(s: &[u8], p: usize) -> u8
    requires { p < length (padded s.now) }
    ensures { result ≡ get_or (padded s.now) p 0 }
{
    let n = s.len();
    if p < n {
        return s[p];
    }
    if p == n {
        return 0x80;
    }
    let e = block_count(s) * Block::BYTES - 8;
    if p < e {
        return 0;
    }
    // A cast: `u64` has no `From<usize>`.
    (n as u64).wrapping_mul(8).to_be_bytes()[p - e]
}
