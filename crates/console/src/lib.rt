// What a program tells of its own start, reading and writing. A read or a write that failed ends it with a status of 1
// and a line on standard error, and standard output stays empty.
#![tactic(auto)]

ghost use Rattle.std.specs.Prelude.{◌≤◌, length, IfOk};

use std::env::{Env, FillError};
use std::fmt::{Debug, Formatter};
use std::io::Read;
use std::{fmt, io};

// What failed, and why.
#[derive(Drop)]
pub struct Failure {
    stream: &'static str,
    why: io::Error,
}

// By hand: what `main` prints of it is this line, and a derive would print the fields.
impl Debug for Failure {
    fn fmt<W: fmt::Write>(&self, f: &mut Formatter<W>) -> fmt::Result {
        let stream = self.stream;
        let why = &self.why;
        write!(f, "{stream}: {why}")
    }
}

// Whether the program was started with arguments, which nobody reads; then it is told.
pub fn has_arguments<R: Env + Eprint>(rt: &R, program: &str) -> bool {
    let mut argument = [0u8; 1];
    if let Err(FillError::NotPresent) = rt.arg(1, &mut argument) {
        return false;
    }
    let _ = eprintln!(rt; "{program} takes no arguments: it reads standard input");
    true
}

// Reads standard input up to its end, or until the buffer is full; answers how many bytes it had.
// The count stands beside the buffer: memory is fixed, and std's `read` answers so.
pub fn read<R: Input>(rt: &R, buf: &mut [u8]) -> Result<usize, Failure>
    ensures { IfOk result (λ n. n ≤ length buf.old) }
{
    // No method of std: `read_exact` refuses a short input, and `io::copy` does not promise what `read` ensures.
    let mut reader = rt.reader();
    let mut at: usize = 0;
    for _ in 0..u64::MAX {
        if at == buf.len() {
            break;
        }
        match reader.read(&mut buf[at..]) {
            Ok(0) => break,
            Ok(n) => at += n,
            Err(why) if why.kind() == io::ErrorKind::Interrupted => {}
            Err(why) => {
                return Err(Failure {
                    stream: "standard input",
                    why,
                });
            }
        }
    }
    Ok(at)
}

// Writes all of a text to standard output.
pub fn write<R: Print>(rt: &R, text: &[u8]) -> Result<(), Failure> {
    rt.write_all(text).map_err(|why| Failure {
        stream: "standard output",
        why,
    })
}
