// The boxes that one step may touch, whose they are, and the answer beside them.
use crate::answer::Answer;
use world::{Delivered, Executions, Hold, Outgoing, Request, Requests};

#[derive(Clone, Copy)]
pub struct Boxes {
    // M, the numbers given.
    pub numbered: u32,
    // How many requests are stored.
    pub stored: u8,
    // The request of the slot that the step or its entry names.
    pub request: Request,
    // Those of the sender that the step or its entry names.
    pub executions: Executions,
    // The server's own.
    pub outgoing: Outgoing,
    // The server's own; at an arrival, the recipient's.
    pub hold: Hold,
    pub delivered: Delivered,
}

// The boxes with the answer. No Result: document 01 has an answer to every step, and 1 changes a box as 0 does.
#[derive(Clone, Copy)]
pub struct Ruling {
    pub answer: Answer,
    pub boxes: Boxes,
}

// The stored requests with the answer to one more. No Result, as in `Ruling`.
#[derive(Clone, Copy)]
pub struct Requested {
    pub answer: Answer,
    pub requests: Requests,
}

// Whose boxes a step touches.
#[derive(Clone, Copy)]
pub struct Touch {
    pub server: usize,
    pub holder: usize,
    pub sender: usize,
    pub slot: usize,
}
