// Prints the listing of the schedule that standard input holds.
#![tactic(auto)]

use console::Failure;
use format::Schedule;

fn main(rt: HostRuntime) -> Result<(), Failure> {
    if console::has_arguments(&rt, "rehearse") {
        return Ok(());
    }
    // One byte more than a schedule may have, so that 20 can be told.
    let mut schedule = [0u8; Schedule::MOST + 1];
    let n = console::read(&rt, &mut schedule)?;
    let mut answers = [0u8; Schedule::MOST];
    let mut text = [0u8; listing::MOST];
    let end = listing::list(&schedule[..n], &mut answers, &mut text);
    console::write(&rt, &text[..end])
}
