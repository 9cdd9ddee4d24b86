// A schedule's bytes: its records, their fields, and the tests that a whole schedule has to pass.
#![tactic(auto)]

mod fields;
mod kinds;
mod reading;
mod scanning;

pub use fields::{byte_at, bytes_at, four_at, two_at};
pub use kinds::form_of;
pub use reading::read_at;
pub use scanning::judge;
