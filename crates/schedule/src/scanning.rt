// The tests of a whole schedule, before anything runs.
ghost use Rattle.std.specs.Prelude.{◌≡◌, ◌≤◌, length};
ghost use Rattle.format.specs.Judging.{scanned, judged};

use crate::fields::byte_at;
use crate::kinds::form_of;
use crate::reading::read_at;
use format::{Form, Read, Refusal, Refused, Schedule};
use world::Roster;

// The records from an offset on: how many, or the first that is refused.
#[tactic(auto, using(format::proofs::Reader::known, format::proofs::Reader::scan_start, format::proofs::Reader::scan_on, format::proofs::Reader::scan_accepts, format::proofs::Reader::scan_refuses, format::proofs::Reader::only_end))]
fn scan(s: &[u8], from: usize) -> Result<usize, Refused>
    requires { from ≤ length s.now }
    ensures { result ≡ scanned s.now from }
{
    let mut at = from;
    let mut k: usize = 0;
    // By offset: each record says where the next one starts; `let else`, as document 01 expects of the reader's answer.
    loop {
        let read = read_at(s, at);
        let Read::Record { next, .. } = read else {
            let Read::Refused(why) = read else {
                return Ok(k);
            };
            return Err(Refused::new(why, at));
        };
        at = next;
        k += 1;
    }
}

// Tests 20 to 25, in document 01's order: how many records there are after the start.
#[tactic(auto, using(format::proofs::Forms::start_body_lem), unfolding(format::specs::Judging::judged, format::specs::Judging::records_judged, search::specs::Tests::must))]
pub fn judge(s: &[u8]) -> Result<usize, Refused>
    ensures { result ≡ judged s.now }
{
    if Schedule::MOST < s.len() {
        return Err(Refused::new(Refusal::TooLong, 0));
    }
    let Form::Start(body) = form_of(byte_at(s, 0)) else {
        return Err(Refused::new(Refusal::NoStart, 0));
    };
    if s.len() <= body {
        return Err(Refused::new(Refusal::Cut, 0));
    }
    let records = scan(s, 1 + body)?;
    let roster = Roster {
        n: byte_at(s, 1),
        faulty: byte_at(s, 2),
    };
    if !roster.is_good() {
        return Err(Refused::new(Refusal::BadStart, 0));
    }
    Ok(records)
}
