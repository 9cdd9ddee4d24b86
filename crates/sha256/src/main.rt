// Prints the SHA-256 of standard input, of at most 55 bytes; more is refused, by code and place.
#![tactic(auto)]

use console::Failure;
use fips180::{Digest, DigestLong};
use hex_text::Line;

fn main(rt: HostRuntime) -> Result<(), Failure> {
    if console::has_arguments(&rt, "sha256") {
        return Ok(());
    }
    let mut message = [0u8; Digest::MOST + 1];
    let n = console::read(&rt, &mut message)?;
    match digest::sha256(&message[..n]) {
        Ok(digest) => console::write(&rt, &Line::from(digest).text),
        Err(DigestLong) => console::write(&rt, b"refused 28 0\n"),
    }
}
