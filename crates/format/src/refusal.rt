// The refusals of a schedule, a start or a single step.
ghost use Rattle.std.specs.Prelude.{◌≡◌};
ghost use Rattle.format.specs.Judging.{refusal_code};

// Why a schedule, a start or a single step is refused.
#[derive(Clone, Copy, Debug, PartialEq, Eq)]
pub enum Refusal {
    TooLong,
    NoStart,
    BadKind,
    SecondStart,
    Cut,
    BadStart,
    OutSmall,
    BadWorld,
}

impl From<Refusal> for u8 {
    ghost from_gives = { λ why code. code ≡ refusal_code why };

    // The code that document 01 gives it, number by number, as its definition.
    fn from(why: Refusal) -> u8 {
        match why {
            Refusal::TooLong => 20,
            Refusal::NoStart => 21,
            Refusal::BadKind => 22,
            Refusal::SecondStart => 23,
            Refusal::Cut => 24,
            Refusal::BadStart => 25,
            Refusal::OutSmall => 26,
            Refusal::BadWorld => 27,
        }
    }
}

// The refusal of a whole schedule, and the offset.
#[derive(Clone, Copy, Debug, PartialEq, Eq)]
pub struct Refused {
    pub why: Refusal,
    pub offset: usize,
}

impl Refused {
    // Why, and the offset.
    pub fn new(why: Refusal, offset: usize) -> Refused
        ensures { result ≡ record { why = why; offset = offset } }
    {
        Refused { why, offset }
    }
}
