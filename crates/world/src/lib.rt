// The world of document 01's "Sizes": n servers, the requests, the orderer's executions, the packets under way, the
// held entries and what each server has delivered. Its boxes are plain values that a step takes out and puts back.
// Callers from outside get worlds too (crate `bridge`), so their structs are `repr(C)`: laid out as C lays out a struct
// of these fields. Each type has its own `fresh`, `unused` or `free`: constructors, a form that document 01 expects.
#![tactic(auto)]

ghost use Rattle.std.specs.Prelude.{◌≡◌};
ghost use Rattle.world.specs.Fresh.{fresh_world};

mod delivered;
mod execution;
mod hold;
mod mask;
mod outgoing;
mod place;
mod request;
mod roster;
mod seating;
mod sending;

pub use delivered::Delivered;
pub use execution::{Execution, Executions, Ordered};
pub use hold::{Entry, Hold};
pub use mask::{has, join};
pub use outgoing::{Outgoing, Packet, recipients};
pub use request::{Request, Requests, same_digest};
pub use roster::Roster;
pub use seating::{seat, within};
pub use sending::Sending;

// Four arrays by server and not one of structs: the C interface.
#[repr(C)]
#[derive(Clone, Copy)]
pub struct World {
    pub roster: Roster,
    // M, the numbers given.
    pub numbered: u32,
    pub requests: Requests,
    // By sender.
    pub executions: [Executions; World::SERVERS],
    // By origin.
    pub outgoing: [Outgoing; World::SERVERS],
    // By server.
    pub holds: [Hold; World::SERVERS],
    pub delivered: [Delivered; World::SERVERS],
}

impl World {
    // A cast here and in `Delivered::MOST`: `usize::from` is not for constants.
    pub const SERVERS: usize = Roster::MOST as usize;

    // The world of n servers, the faulty ones given by their mask, before the first step.
    #[tactic(auto, unfolding(crate::specs::Fresh::fresh_world))]
    pub fn fresh(n: u8, faulty: u8) -> World
        ensures { result ≡ fresh_world n faulty }
    {
        World {
            roster: Roster { n, faulty },
            numbered: 0,
            requests: Requests::fresh(),
            executions: [Executions::fresh(); World::SERVERS],
            outgoing: [Outgoing::fresh(); World::SERVERS],
            holds: [Hold::fresh(); World::SERVERS],
            delivered: [Delivered::fresh(); World::SERVERS],
        }
    }
}
