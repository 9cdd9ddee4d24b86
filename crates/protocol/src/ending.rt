// How a step and a run end.
use crate::answer::Answer;
use world::World;

// A step's end: its answer, and the world after. No Result, as in `Ruling`.
#[derive(Clone, Copy)]
pub struct Stepped {
    pub answer: Answer,
    pub world: World,
}

// A run's end: how many records it had after the start, and the world after.
#[derive(Clone, Copy)]
pub struct Ran {
    pub records: usize,
    pub world: World,
}

// What C is told of a step or a start: the code of its answer or refusal, and the world after. The C interface has no
// Result.
#[repr(C)]
#[derive(Clone, Copy)]
pub struct Outcome {
    pub code: u8,
    pub world: World,
}
