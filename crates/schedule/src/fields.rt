// The fields of a record: bytes and big-endian numbers at a place of the schedule. Past its end every byte reads as 0.
ghost use Rattle.std.specs.Prelude.{◌≡◌};
ghost use Rattle.format.specs.Fields.{byte_at, two_at, four_at, bytes_at};

// One byte.
pub fn byte_at(s: &[u8], at: usize) -> u8
    ensures { result ≡ byte_at s.now at }
{
    s.get(at).copied().unwrap_or(0)
}

// N bytes.
#[tactic(auto, using(crate::proofs::Past::returned))]
pub fn bytes_at<const N: usize>(s: &[u8], at: usize) -> [u8; N]
    ensures { result ≡ bytes_at s.now at N }
{
    let mut b = [0u8; N];
    let tail = &s[at.min(s.len())..];
    let n = tail.len().min(N);
    b[..n].copy_from_slice(&tail[..n]);
    b
}

// A number of two bytes.
#[tactic(auto, using(crate::proofs::Past::two))]
pub fn two_at(s: &[u8], at: usize) -> u16
    ensures { result ≡ two_at s.now at }
{
    u16::from_be_bytes(bytes_at(s, at))
}

// A number of four bytes.
#[tactic(auto, using(crate::proofs::Past::four))]
pub fn four_at(s: &[u8], at: usize) -> u32
    ensures { result ≡ four_at s.now at }
{
    u32::from_be_bytes(bytes_at(s, at))
}
