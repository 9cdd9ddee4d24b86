// A text in the making: bytes, words and numbers, written into a lent buffer as far as they fit.
#![tactic(auto)]

ghost use Rattle.std.specs.Prelude.{[], ◌∷◌, ◌+◌, ◌≤◌, ◌<◌, length};
ghost use Rattle.writing.specs.Writing.{Writes, far};

use itoa::{Buffer, Integer};

// The buffer, and the place after what was written so far: a byte past the buffer's end is counted, and not stored.
// No invariant bounds the place: each function would ask for the room of its own text all the same.
#[derive(Drop)]
pub struct Text<'a> {
    pub bytes: &'a mut [u8],
    pub at: usize,
}

impl Text<'_> {
    // One byte.
    pub fn byte(&mut self, b: u8)
        requires { self.old.at < far }
        ensures { Writes self.old (b ∷ []) self.new }
    {
        if self.at < self.bytes.len() {
            self.bytes[self.at] = b;
        }
        self.at += 1;
    }

    // The bytes of a word.
    pub fn word(&mut self, word: &[u8])
        requires { self.old.at + length word.now < far }
        ensures { Writes self.old word.now self.new }
    {
        for b in word {
            self.byte(*b);
        }
    }

    // A number in decimal. Not by `write!`: nothing excludes its Err, and `write_str` may not ask that `at` is small.
    pub fn number<I: Integer>(&mut self, n: I)
        requires { self.old.at + I.MAX_STR_LEN < far }
        ensures wrote { Writes self.old (I.text n) self.new }
        ensures upper_bound { self.new.at ≤ self.old.at + I.MAX_STR_LEN }
    {
        self.word(Buffer::new().format(n).as_bytes());
    }
}
