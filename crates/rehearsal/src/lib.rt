// What callers get: a start, a single step, a whole run.
#![tactic(auto)]

mod boxing; // the boxes that a record's step touches
mod running;
mod starting;
mod stepping;

pub use quiet::quiet;
pub use running::run;
pub use starting::start;
pub use stepping::step;
