// A whole run.
ghost use Rattle.std.specs.Prelude.{◌≡◌, length};
ghost use Rattle.protocol.specs.Runs.{ran_of, run_told, written_of};

use crate::stepping::step_in;
use format::{Read, Refusal, Refused, Schedule};
use protocol::Ran;
use schedule::{byte_at, judge, read_at};
use world::World;

// Runs a schedule and writes one answer for each record after the start.
#[tactic(auto, using(format::proofs::Reader::known, crate::proofs::Going::going_room), unfolding(protocol::specs::Runs::ran_of, protocol::specs::Runs::written_of, search::specs::Tests::must))]
pub fn run(s: &[u8], answers: &mut [u8]) -> Result<Ran, Refused>
    ensures value { run_told result ≡ ran_of s.now (length answers.old) }
    ensures answers_after { answers.new ≡ written_of s.now answers.old }
{
    let records = judge(s)?;
    if answers.len() < records {
        return Err(Refused::new(Refusal::OutSmall, 0));
    }
    let mut world = World::fresh(byte_at(s, 1), byte_at(s, 2));
    let mut at: usize = Schedule::START;
    let mut k: usize = 0;
    // By offset: each record says where the next one starts; `let else`, as document 01 expects of the reader's answer.
    loop {
        let Read::Record { kind, start, next } = read_at(s, at) else {
            return Ok(Ran { records: k, world });
        };
        let answer = step_in(&mut world, kind, &s[start..]);
        answers[k] = answer.into();
        k += 1;
        at = next;
    }
}
