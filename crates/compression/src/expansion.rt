// The message schedule: a block's 16 words and 48 more (FIPS 180-4, §6.2.2, step 1).
ghost use Rattle.std.specs.Prelude.{◌≡◌, ◌<◌, length, take};
ghost use Rattle.fips180.specs.Sha256.{word_at, block_words, next_word, scheduled};

use crate::word::{lower0, lower1};
use fips180::Block;

#[derive(Clone, Copy)]
pub struct Schedule {
    pub words: [u32; Schedule::WORDS],
}

impl Schedule {
    // One word for each round; the first are the block's.
    pub const WORDS: usize = 64;

    pub const FIRST: usize = 16;

    // The schedule of a block.
    pub(crate) fn of(b: Block) -> Schedule
        ensures { result.words ≡ scheduled (block_words b.bytes 16) 48 }
    {
        Schedule::begun(b).expanded()
    }

    // The block's words, and zeros after them.
    #[tactic(auto, using(crate::proofs::Words::more_words), unfolding(fips180::specs::Sha256::block_words))]
    fn begun(b: Block) -> Schedule
        ensures { (length result.words ≡ 64) × (take 16 result.words ≡ block_words b.bytes 16) }
    {
        let mut ws = [0u32; Schedule::WORDS];
        for t in 0..Schedule::FIRST {
            ws[t] = word_at(b, t * 4);
        }
        Schedule { words: ws }
    }

    // The words after the block's, each from those before it.
    #[tactic(auto, using(crate::proofs::Words::more_schedule), unfolding(fips180::specs::Sha256::scheduled))]
    fn expanded(self) -> Schedule
        ensures { result.words ≡ scheduled (take 16 self.words) 48 }
    {
        let mut ws = self.words;
        for t in 0..Schedule::WORDS - Schedule::FIRST {
            ws[t + Schedule::FIRST] = next_word(&ws, t);
        }
        Schedule { words: ws }
    }
}

// The big-endian word whose four bytes begin at i.
fn word_at(b: Block, i: usize) -> u32
    requires { i < 61 }
    ensures { result ≡ word_at b.bytes i }
{
    u32::from_be_bytes([b.bytes[i], b.bytes[i + 1], b.bytes[i + 2], b.bytes[i + 3]])
}

// The word t + 16 of the schedule.
#[tactic(auto, unfolding(fips180::specs::Sha256::next_word))]
fn next_word(ws: &[u32; Schedule::WORDS], t: usize) -> u32
    requires { t < 48 }
    ensures { result ≡ next_word ws.now t }
{
    lower1(ws[t + 14])
        .wrapping_add(ws[t + 9])
        .wrapping_add(lower0(ws[t + 1]))
        .wrapping_add(ws[t])
}
