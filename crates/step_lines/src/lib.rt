// The first line and those of the steps, each written to a text.
#![tactic(auto)]

ghost use Rattle.std.specs.Prelude.{◌+◌, ◌*◌, ◌^◌, ◌≤◌, ◌<◌, length};
ghost use Rattle.writing.specs.Writing.{Writes};
ghost use Rattle.protocol.specs.Longest.{world_most, step_most, listing_most};
ghost use Rattle.protocol.specs.Listing.{world_line, step_line, step_lines};

use world::Roster;
use writing::Text;

// `world N F T RECORDS`, the first line: with it a text begins.
pub fn put_world<'a>(bytes: &'a mut [u8], roster: Roster, records: usize) -> Text<'a>
    requires { records < 10 ^ 5 }
    ensures wrote { Writes (record { bytes = bytes.entry; at = 0 }) (world_line roster records) result }
    ensures upper_bound { result.at ≤ world_most }
{
    let mut text = Text { bytes, at: 0 };
    text.word(b"world ");
    text.number(roster.n);
    text.byte(b' ');
    text.number(roster.faults());
    text.byte(b' ');
    text.number(roster.threshold());
    text.byte(b' ');
    text.number(records);
    text.byte(b'\n');
    text
}

// `step K ANSWER`
fn put_step(text: &mut Text<'_>, k: usize, answer: u8)
    requires at_le_listing_most { text.old.at ≤ listing_most }
    requires k_bound { k < 10 ^ 5 }
    ensures wrote { Writes text.old (step_line k answer) text.new }
    ensures upper_bound { text.new.at ≤ text.old.at + step_most }
{
    text.word(b"step ");
    text.number(k);
    text.byte(b' ');
    text.number(answer);
    text.byte(b'\n');
}

// The lines of all steps, K from 1.
#[tactic(auto, unfolding(protocol::specs::Listing::step_lines))]
pub fn put_steps(text: &mut Text<'_>, answers: &[u8])
    requires { text.old.at + length answers.now * step_most ≤ listing_most }
    ensures wrote { Writes text.old (step_lines 1 answers.now) text.new }
    ensures upper_bound { text.new.at ≤ text.old.at + length answers.now * step_most }
{
    for (i, answer) in answers.iter().enumerate() {
        put_step(text, i + 1, *answer);
    }
}
