// The listing of a schedule, as bytes in a lent buffer.
#![tactic(auto)]

ghost use Rattle.std.specs.Prelude.{◌≡◌, ◌+◌, ◌*◌, ◌≤◌, length, take};
ghost use Rattle.std.proofs.lemmas.List.Edits.{sets};
ghost use Rattle.world.specs.Sizes.{servers};
ghost use Rattle.format.specs.Judging.{refusal_code, schedule_most};
ghost use Rattle.writing.specs.Writing.{Wrote, Writes};
ghost use Rattle.protocol.specs.Runs.{written_of};
ghost use Rattle.protocol.specs.Longest.{record_bytes_least, numbered_most, listing_most};
ghost use Rattle.protocol.specs.Listing.{refused_line, numbered_line, run_lines, listing_of};

use format::Refused;
use server_lines::put_servers;
use step_lines::{put_steps, put_world};
use world::World;
use writing::Text;

// The most bytes of a listing.
pub const MOST: usize = 262144;

// `refused NUMBER OFFSET`, alone.
fn put_refused(text: &mut [u8], refused: Refused) -> usize
    ensures wrote { Wrote text.old 0 (refused_line (refusal_code refused.why) refused.offset) text.new result }
    ensures upper_bound { result ≤ listing_most }
{
    let mut text = Text { bytes: text, at: 0 };
    text.word(b"refused ");
    text.number(u8::from(refused.why));
    text.byte(b' ');
    text.number(refused.offset);
    text.byte(b'\n');
    text.at
}

// `numbered M`
fn put_numbered(text: &mut Text<'_>, m: u32)
    requires { text.old.at + numbered_most ≤ listing_most }
    ensures wrote { Writes text.old (numbered_line m) text.new }
    ensures upper_bound { text.new.at ≤ text.old.at + numbered_most }
{
    text.word(b"numbered ");
    text.number(m);
    text.byte(b'\n');
}

// All lines of a run.
fn put_run(text: &mut [u8], answers: &[u8], w: World) -> usize
    requires record_bytes_least_bound { length answers.now * record_bytes_least ≤ schedule_most }
    requires n_le_servers { w.roster.n ≤ servers }
    ensures wrote { Wrote text.old 0 (run_lines (length answers.now) answers.now w) text.new result }
    ensures upper_bound { result ≤ listing_most }
{
    let mut text = put_world(text, w.roster, answers.len());
    put_steps(&mut text, answers);
    put_servers(&mut text, w);
    put_numbered(&mut text, w.numbered);
    text.at
}

// Runs a schedule and writes its listing to the front of a text, as far as it fits; answers the listing's length.
pub fn list(schedule: &[u8], answers: &mut [u8], text: &mut [u8]) -> usize
    ensures value { result ≡ length (listing_of schedule.now (length answers.old)) }
    ensures upper_bound { result ≤ listing_most }
    ensures answers_after { answers.new ≡ written_of schedule.now answers.old }
    ensures text_after { text.new
        ≡ sets text.old 0 (listing_of schedule.now (length answers.old)) }
{
    match rehearsal::run(schedule, answers) {
        Ok(ran) => put_run(text, &answers[..ran.records], ran.world),
        Err(refused) => put_refused(text, refused),
    }
}
