// "All zeros": what a free or unused place holds. A function for each type, since the definitions in protocol's Zeros
// are one for each, and callers ask by their names.
ghost use Rattle.std.specs.Prelude.{◌≡◌};
ghost use Rattle.protocol.specs.Zeros.{zero_request, zero_execution, zero_sending, zero_packet, zero_entry};

use world::{Entry, Execution, Packet, Request, Sending};

// Whether a slot of a request is all zeros.
pub fn zero_request(q: Request) -> bool
    ensures { result ≡ zero_request q }
{
    q == Request::unused()
}

// Whether a place of an execution is all zeros.
pub fn zero_execution(x: Execution) -> bool
    ensures { result ≡ zero_execution x }
{
    x == Execution::unused()
}

// Whether a place of a packet is all zeros.
pub fn zero_packet(p: Packet) -> bool
    ensures { result ≡ zero_packet p }
{
    p == Packet::free()
}

// Whether a place of an entry is all zeros.
pub fn zero_entry(e: Entry) -> bool
    ensures { result ≡ zero_entry e }
{
    e == Entry::free()
}

// Whether a sending is all zeros, as at an unused place of an item.
pub fn zero_sending(s: Sending) -> bool
    ensures { result ≡ zero_sending s }
{
    s == Sending::none()
}
