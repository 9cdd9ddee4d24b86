// The boxes that a record's step touches, and its rule on them.
ghost use Rattle.std.specs.Prelude.{◌≡◌};
ghost use Rattle.world.specs.Sizes.{command_bytes};
ghost use Rattle.format.specs.Fields.{byte_at, four_at, bytes_at};
ghost use Rattle.protocol.specs.Rules.{request_of};
ghost use Rattle.rehearsal.specs.Acts.{Seated, touch_by, act_of};

use format::Act;
use protocol::{Boxes, Requested, Ruling, Touch};
use schedule::{byte_at, bytes_at, four_at, two_at};
use world::{Entry, Packet, Requests, Roster, seat, within};

// Whose boxes a record's step touches: its body starts with x and y, and those name the packet p or the entry e of
// server x.
pub(crate) fn touch_by(act: Act, x: u8, y: u8, p: Packet, e: Entry) -> Touch
    ensures value { result ≡ touch_by act x y p e }
    ensures seated { Seated result }
{
    let server = seat(x);
    let own = Touch {
        server,
        holder: server,
        sender: server,
        slot: 0,
    };
    match act {
        Act::Multicast => Touch {
            slot: within(Requests::MOST, y),
            ..own
        },
        Act::Arrive => Touch {
            holder: seat(p.to),
            ..own
        },
        Act::Propose | Act::Settle => Touch {
            sender: seat(e.sending.sender),
            slot: within(Requests::MOST, e.sending.slot),
            ..own
        },
        Act::Deliver | Act::ForgePacket | Act::ForgeSend => own,
        Act::ForgeReceive => Touch {
            sender: seat(y),
            ..own
        },
    }
}

// The rule of a record with this body, on the boxes. An arm for each act: their fields differ, so that closures or
// a table of rules would each take the body apart again.
pub(crate) fn act(act: Act, body: &[u8], roster: Roster, boxes: Boxes) -> Ruling
    ensures { result ≡ act_of roster act body.now 0 boxes }
{
    let x = byte_at(body, 0);
    let y = byte_at(body, 1);
    match act {
        Act::Multicast => rules::multicast(roster, x, y, boxes),
        Act::Arrive => rules::arrive(roster, x, y, boxes),
        Act::Propose => rules::propose(roster, x, y, boxes),
        Act::Settle => rules::settle(roster, x, y, boxes),
        Act::Deliver => rules::deliver(roster, x, boxes),
        Act::ForgePacket => rules::forge_packet(
            roster,
            x,
            y,
            byte_at(body, 2),
            two_at(body, 3),
            byte_at(body, 5),
            boxes,
        ),
        Act::ForgeSend => rules::forge_send(roster, x, two_at(body, 1), bytes_at(body, 3), boxes),
        Act::ForgeReceive => {
            rules::forge_receive(roster, x, y, two_at(body, 2), bytes_at(body, 4), boxes)
        }
    }
}

// The request of a record with this body.
pub(crate) fn store(body: &[u8], roster: Roster, requests: Requests) -> Requested
    ensures { result ≡
        request_of roster (byte_at body.now 0) (four_at body.now 1) (byte_at body.now 5)
        (bytes_at body.now 6 command_bytes) requests }
{
    rules::request(
        roster,
        requests,
        byte_at(body, 0),
        four_at(body, 1),
        byte_at(body, 5),
        bytes_at(body, 6),
    )
}
