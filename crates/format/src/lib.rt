// What a schedule's bytes may say: its sizes, the kinds of record, what stands at an offset, the refusals and a
// schedule's fate. The bytes' meaning is in specs/; nothing is read here.
#![tactic(auto)]

mod kinds;
mod reading;
mod refusal;

use fips180::Digest;
pub use kinds::{Act, Form, Kind};
pub use reading::Read;
pub use refusal::{Refusal, Refused};

// A schedule's sizes in bytes.
#[derive(Clone, Copy)]
pub struct Schedule {}

impl Schedule {
    pub const MOST: usize = 32768;

    // The kind of a record.
    pub const KIND: usize = 1;

    // A server's name, a slot or a place.
    pub const NAME: usize = 1;

    // An execution's id.
    pub const ID: usize = 2;

    // The body of a start: n and the faulty mask.
    pub const START_BODY: usize = 2;

    pub const START: usize = Schedule::KIND + Schedule::START_BODY;

    // The bodies of the other kinds, by what they have; a request's is `Request::BYTES`.
    pub const TWO_NAMES: usize = 2 * Schedule::NAME;

    pub const FORGED_PACKET: usize = 3 * Schedule::NAME + Schedule::ID + Schedule::NAME;

    pub const FORGED_SEND: usize = Schedule::NAME + Schedule::ID + Digest::BYTES;

    pub const FORGED_RECEIVE: usize = 2 * Schedule::NAME + Schedule::ID + Digest::BYTES;
}
