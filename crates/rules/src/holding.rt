// What a step does to one entry of the hold.
ghost use Rattle.std.specs.Prelude.{◌≡◌};
ghost use Rattle.protocol.specs.Rules.{answered, raised, dropped_at};

use protocol::{Answer, Boxes};
use world::Entry;

// The entry freed: the step is dropped.
pub(crate) fn drop_entry(place: u8, b: &mut Boxes) -> Answer
    ensures { answered result b.new ≡ dropped_at place b.old }
{
    b.hold = b.hold.put(usize::from(place), Entry::free());
    Answer::Dropped
}

// The entry at a place, at a later stage and with a number.
pub(crate) fn raise(place: u8, stage: u8, number: u32, b: &mut Boxes)
    ensures { b.new ≡ raised place stage number b.old }
{
    let sending = b.hold.at(place).sending;
    b.hold = b
        .hold
        .put(usize::from(place), Entry::new(stage, sending, number));
}
