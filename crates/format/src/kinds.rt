// The kinds of record.

// What a step does that touches the boxes of a few servers only.
#[derive(Clone, Copy)]
pub enum Act {
    Multicast,
    Arrive,
    Propose,
    Settle,
    Deliver,
    ForgePacket,
    ForgeSend,
    ForgeReceive,
}

// What a record after the start asks for.
#[derive(Clone, Copy)]
pub enum Kind {
    Request,
    Act(Act),
}

// A kind number's meaning, with the length of the body.
#[derive(Clone, Copy)]
pub enum Form {
    Start(usize),
    Step(Kind, usize),
    Bad,
}
