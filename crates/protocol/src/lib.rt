// What the definitions of the protocol speak of: the answers to a step, the boxes that one step may touch, and how a
// step or a run ends. The rules themselves are in specs/; no rule's code is here.
#![tactic(auto)]

mod answer;
mod boxes;
mod ending;

pub use answer::Answer;
pub use boxes::{Boxes, Requested, Ruling, Touch};
pub use ending::{Outcome, Ran, Stepped};
