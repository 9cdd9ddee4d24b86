// Digests as text.
#![tactic(auto)]

ghost use Rattle.std.specs.Prelude.{◌≡◌};
ghost use Rattle.hex_text.specs.Hex.{hex_line};

use fips180::Digest;

// A line of text: two digits a byte, and the newline.
#[derive(Clone, Copy)]
pub struct Line {
    pub text: [u8; Line::BYTES],
}

impl Line {
    // The digits of a digest.
    pub const DIGITS: usize = 2 * Digest::BYTES;

    pub const BYTES: usize = Line::DIGITS + 1;
}

// The digest in hex, lower case, highest digit first.
impl From<[u8; Digest::BYTES]> for Line {
    ghost from_gives = { λ bytes line. line.text ≡ hex_line bytes };

    fn from(bytes: [u8; Digest::BYTES]) -> Line {
        let mut text = [b'\n'; Line::BYTES];
        hex::encode_to_slice(bytes, &mut text[..Line::DIGITS]).unwrap();
        Line { text }
    }
}
