// The boxes of one server in a sound world: its packets under way, the entries that it holds, what it has delivered.
#![tactic(auto)]

mod entries;
mod items;
mod packets;

pub use entries::hold_sound;
pub use items::delivered_sound;
pub use packets::outgoing_sound;
