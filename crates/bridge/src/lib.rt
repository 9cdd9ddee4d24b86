// What C and Rust callers link (`tools/build bridge`): numbers, lent bytes, and worlds by value. What passes how is
// written down on the callers' side, in `bindings`.
#![tactic(auto)]

ghost use Rattle.std.specs.Prelude.{◌≡◌, length};
ghost use Rattle.fips180.specs.Digest.{digest_answer, digest_number, digest_written};
ghost use Rattle.protocol.specs.Quiet.{quiet};
ghost use Rattle.protocol.specs.Runs.{start_of, public_step, written_of};
ghost use Rattle.bridge.specs.Bridge.{run_of};

use fips180::Digest;
use protocol::Outcome;
use world::World;

// How a run ended: 0 and the count of records after the start, or a refusal's code and offset; and the world at its
// end, a world of zeros where it is refused. The C interface has no Result.
#[repr(C)]
#[derive(Clone, Copy)]
pub struct Run {
    pub offset: usize,
    pub records: usize,
    pub code: u8,
    pub world: World,
}

// The answer's code; the digest goes into `out`, zeros where the message is refused.
#[unsafe(no_mangle)]
pub extern "C" fn staubharfe_sha256(message: &[u8], out: &mut [u8; Digest::BYTES]) -> u8
    ensures value { result ≡ digest_number (digest_answer message.now) }
    ensures out_after { out.new ≡ digest_written (digest_answer message.now) }
{
    match digest::sha256(message) {
        Ok(digest) => {
            *out = digest;
            0
        }
        Err(why) => {
            *out = [0; Digest::BYTES];
            u8::from(why)
        }
    }
}

// A fresh world with 0; 25 and a world of zeros where no world may start so.
#[unsafe(no_mangle)]
pub extern "C" fn staubharfe_start(n: u8, faulty: u8) -> Outcome
    ensures { result ≡ start_of n faulty }
{
    match rehearsal::start(n, faulty) {
        Ok(world) => Outcome { code: 0, world },
        Err(why) => Outcome {
            code: why.into(),
            world: World::fresh(0, 0),
        },
    }
}

// The step of one record: its answer's code, or why it is refused, and the world after.
#[unsafe(no_mangle)]
pub extern "C" fn staubharfe_step(world: World, bytes: &[u8]) -> Outcome
    ensures { result ≡ public_step world bytes.now }
{
    match rehearsal::step(world, bytes) {
        Ok(stepped) => Outcome {
            code: stepped.answer.into(),
            world: stepped.world,
        },
        Err(why) => Outcome {
            code: why.into(),
            world,
        },
    }
}

// Runs a schedule and writes one answer for each record after the start.
#[unsafe(no_mangle)]
#[tactic(auto, unfolding(crate::specs::Bridge::run_of))]
pub extern "C" fn staubharfe_run(schedule: &[u8], answers: &mut [u8]) -> Run
    ensures value { result ≡ run_of schedule.now (length answers.old) }
    ensures answers_after { answers.new ≡ written_of schedule.now answers.old }
{
    match rehearsal::run(schedule, answers) {
        Ok(ran) => Run {
            offset: 0,
            records: ran.records,
            code: 0,
            world: ran.world,
        },
        Err(refused) => Run {
            offset: refused.offset,
            records: 0,
            code: refused.why.into(),
            world: World::fresh(0, 0),
        },
    }
}

// Whether a world is quiet.
#[unsafe(no_mangle)]
pub extern "C" fn staubharfe_quiet(world: World) -> bool
    ensures { result ≡ quiet world }
{
    rehearsal::quiet(world)
}
