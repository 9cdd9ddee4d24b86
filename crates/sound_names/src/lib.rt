// What every test of a sound or quiet world asks: what packets, entries and items name, whether keys differ, which
// places are used and which are all zeros.
#![tactic(auto)]

mod keys;
mod naming;
mod tables;
mod zeros;

pub use keys::keys_differ;
pub use naming::{Known, has_execution, is_correct, own_execution, table_of};
pub use tables::used_below;
pub use zeros::{zero_entry, zero_execution, zero_packet, zero_request, zero_sending};
