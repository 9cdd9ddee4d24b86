// The types of SHA-256. What it computes is in specs/, section by section of FIPS 180-4; no function of it is here.
#![tactic(auto)]

ghost use Rattle.std.specs.Prelude.{◌≡◌};
ghost use Rattle.fips180.specs.Digest.{long_number};

// The eight working variables, or the eight words of a hash value (§6.2.2).
#[derive(Clone, Copy)]
pub struct State {
    pub a: u32,
    pub b: u32,
    pub c: u32,
    pub d: u32,
    pub e: u32,
    pub f: u32,
    pub g: u32,
    pub h: u32,
}

impl State {
    pub const WORDS: usize = 8;

    pub const BYTES: usize = 4 * State::WORDS;
}

// A block of the padded message: 512 bits (§5.2.1).
#[derive(Clone, Copy)]
pub struct Block {
    pub bytes: [u8; Block::BYTES],
}

impl Block {
    pub const BYTES: usize = 64;
}

// The digest of a message: its bytes are a plain array, and its sizes stand here.
#[derive(Clone, Copy)]
pub struct Digest;

impl Digest {
    pub const BYTES: usize = State::BYTES;

    // The most bytes of a message.
    pub const MOST: usize = 55;
}

// Why a message has no digest: it has more than `Digest::MOST` bytes.
#[derive(Clone, Copy, PartialEq, Eq, Debug)]
pub struct DigestLong;

// The code that document 01 gives it.
impl From<DigestLong> for u8 {
    ghost from_gives = { λ why n. n ≡ long_number why };

    fn from(_why: DigestLong) -> u8 {
        28
    }
}
