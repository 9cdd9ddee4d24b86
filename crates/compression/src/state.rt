// The hash value: its eight words, the rounds on them, and their bytes (FIPS 180-4, §5.3.3 and §6.2.2, steps 2 to 4).
ghost use Rattle.std.specs.Prelude.{◌≡◌};
ghost use Rattle.fips180.specs.Sha256.{initial, round_of, rounds_of, fed, compressed, state_bytes};

use crate::expansion::Schedule;
use crate::word::{choose, majority, upper0, upper1};
use fips180::{Block, State};

// §4.2.2
const K: [u32; Schedule::WORDS] = [
    0x428a2f98, 0x71374491, 0xb5c0fbcf, 0xe9b5dba5, 0x3956c25b, 0x59f111f1, 0x923f82a4, 0xab1c5ed5,
    0xd807aa98, 0x12835b01, 0x243185be, 0x550c7dc3, 0x72be5d74, 0x80deb1fe, 0x9bdc06a7, 0xc19bf174,
    0xe49b69c1, 0xefbe4786, 0x0fc19dc6, 0x240ca1cc, 0x2de92c6f, 0x4a7484aa, 0x5cb0a9dc, 0x76f988da,
    0x983e5152, 0xa831c66d, 0xb00327c8, 0xbf597fc7, 0xc6e00bf3, 0xd5a79147, 0x06ca6351, 0x14292967,
    0x27b70a85, 0x2e1b2138, 0x4d2c6dfc, 0x53380d13, 0x650a7354, 0x766a0abb, 0x81c2c92e, 0x92722c85,
    0xa2bfe8a1, 0xa81a664b, 0xc24b8b70, 0xc76c51a3, 0xd192e819, 0xd6990624, 0xf40e3585, 0x106aa070,
    0x19a4c116, 0x1e376c08, 0x2748774c, 0x34b0bcb5, 0x391c0cb3, 0x4ed8aa4a, 0x5b9cca4f, 0x682e6ff3,
    0x748f82ee, 0x78a5636f, 0x84c87814, 0x8cc70208, 0x90befffa, 0xa4506ceb, 0xbef9a3f7, 0xc67178f2,
];

// §5.3.3
const H: [u32; State::WORDS] = [
    0x6a09e667, 0xbb67ae85, 0x3c6ef372, 0xa54ff53a, 0x510e527f, 0x9b05688c, 0x1f83d9ab, 0x5be0cd19,
];

// The initial hash value.
pub fn start() -> State
    ensures { result ≡ initial }
{
    State {
        a: H[0],
        b: H[1],
        c: H[2],
        d: H[3],
        e: H[4],
        f: H[5],
        g: H[6],
        h: H[7],
    }
}

// Step 3: one round, with its constant and its word.
#[tactic(auto, unfolding(fips180::specs::Sha256::round_of))]
fn round(v: State, k: u32, w: u32) -> State
    ensures { result ≡ round_of k w v }
{
    let t1 = v
        .h
        .wrapping_add(upper1(v.e))
        .wrapping_add(choose(v.e, v.f, v.g))
        .wrapping_add(k)
        .wrapping_add(w);
    let t2 = upper0(v.a).wrapping_add(majority(v.a, v.b, v.c));
    State {
        a: t1.wrapping_add(t2),
        b: v.a,
        c: v.b,
        d: v.c,
        e: v.d.wrapping_add(t1),
        f: v.e,
        g: v.f,
        h: v.g,
    }
}

// Step 3: all the rounds, on a block's schedule.
#[tactic(auto, unfolding(fips180::specs::Sha256::rounds_of))]
fn rounds(v: State, s: Schedule) -> State
    ensures { result ≡ rounds_of s.words v 64 }
{
    let mut u = v;
    for t in 0..Schedule::WORDS {
        u = round(u, K[t], s.words[t]);
    }
    u
}

// Step 4: the hash value with what its rounds gave, word by word.
#[tactic(auto, unfolding(fips180::specs::Sha256::fed))]
fn feed(v: State, w: State) -> State
    ensures { result ≡ fed v w }
{
    State {
        a: w.a.wrapping_add(v.a),
        b: w.b.wrapping_add(v.b),
        c: w.c.wrapping_add(v.c),
        d: w.d.wrapping_add(v.d),
        e: w.e.wrapping_add(v.e),
        f: w.f.wrapping_add(v.f),
        g: w.g.wrapping_add(v.g),
        h: w.h.wrapping_add(v.h),
    }
}

// The hash value after one more block.
#[tactic(auto, unfolding(fips180::specs::Sha256::compressed))]
pub fn compress(v: State, b: Block) -> State
    ensures { result ≡ compressed v b.bytes }
{
    feed(v, rounds(v, Schedule::of(b)))
}

// The hash value as bytes.
pub fn bytes(v: State) -> [u8; State::BYTES]
    ensures { result ≡ state_bytes v }
{
    let words = [v.a, v.b, v.c, v.d, v.e, v.f, v.g, v.h];
    let mut out = [0u8; State::BYTES];
    for i in 0..State::WORDS {
        out[i * 4..i * 4 + 4].copy_from_slice(&words[i].to_be_bytes());
    }
    out
}
