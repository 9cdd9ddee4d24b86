// The answers to a step.
ghost use Rattle.std.specs.Prelude.{◌≡◌};
ghost use Rattle.protocol.specs.Answers.{answer_code};

#[derive(Clone, Copy, Debug, PartialEq, Eq)]
pub enum Answer {
    Done,
    Dropped,
    Wait,
    Dismissed,
    BadServer,
    WrongSide,
    NoSuch,
    BadField,
    SameDigest,
    NoRoom,
    Quota,
    Unknown,
    WrongDigest,
    Recall,
}

impl From<Answer> for u8 {
    ghost from_gives = { λ answer code. code ≡ answer_code answer };

    // The code that document 01 gives it, number by number, as its definition.
    fn from(answer: Answer) -> u8 {
        match answer {
            Answer::Done => 0,
            Answer::Dropped => 1,
            Answer::Wait => 2,
            Answer::Dismissed => 3,
            Answer::BadServer => 4,
            Answer::WrongSide => 5,
            Answer::NoSuch => 6,
            Answer::BadField => 7,
            Answer::SameDigest => 8,
            Answer::NoRoom => 9,
            Answer::Quota => 10,
            Answer::Unknown => 11,
            Answer::WrongDigest => 12,
            Answer::Recall => 13,
        }
    }
}
