// The published short messages of SHA-256 (NIST's SHA256ShortMsg, 0 to 55 bytes): each line of standard input is a
// message in hex, and a line of its digest is written for each. The file stdout beside this folder has the published
// digests.
#![tactic(auto)]

ghost use Rattle.std.specs.Prelude.{◌<◌};

use console::Failure;
use fips180::Digest;
use hex_text::Line;

// The value of a lower-case hex digit; of any other character, some number below 16.
// By hand: the library `hex` refuses such a character, and this program never did.
fn value(c: u8) -> u8
    ensures { result < 16 }
{
    if c < b'a' {
        c % 16
    } else {
        (c - b'a' + 10) % 16
    }
}

fn main(rt: HostRuntime) -> Result<(), Failure> {
    if console::has_arguments(&rt, "vectors") {
        return Ok(());
    }
    let mut lines = [0u8; 4096];
    let n = console::read(&rt, &mut lines)?;
    // Fixed memory, and no split at the newlines: a last line without one is not shown.
    let mut message = [0u8; Digest::MOST];
    let mut digits: usize = 0;
    for &c in &lines[..n] {
        let at = digits / 2;
        if c == b'\n' {
            let digest = digest::sha256(&message[..at]).unwrap();
            console::write(&rt, &Line::from(digest).text)?;
            digits = 0;
            continue;
        }
        if at < Digest::MOST {
            message[at] = message[at] % 16 * 16 + value(c);
            digits += 1;
        }
    }
    Ok(())
}
