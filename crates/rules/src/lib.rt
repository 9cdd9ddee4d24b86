// The rules of document 01's "Steps, with tests in order": what each kind of step does to the boxes that it touches.
#![tactic(auto)]

// A rule takes the roster, a server, a record's fields and the boxes one by one, in no struct: so does its definition
// in protocol's Rules, and a struct's clauses would take it apart again.

mod holding; // an entry freed or raised
mod orderer; // an execution made, a call recorded
mod arrival;
mod delivery;
mod forged_packet;
mod forged_receive;
mod forged_send;
mod proposal;
mod sending;
mod settling;
mod storing;
mod testing; // tests that several rules share

pub use arrival::arrive;
pub use delivery::deliver;
pub use forged_packet::forge_packet;
pub use forged_receive::forge_receive;
pub use forged_send::forge_send;
pub use proposal::propose;
pub use sending::multicast;
pub use settling::settle;
pub use storing::request;
