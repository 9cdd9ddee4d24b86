// The packets that one server has sent and that have not arrived.
ghost use Rattle.std.specs.Prelude.{◌≡◌, refl, not};
ghost use Rattle.world.specs.Outgoing.{free_packet, packet_for, fresh_outgoing, packet_at, free_outgoing, free_places};
ghost use Rattle.world.specs.Outgoing.{packet_added, packet_freed, sent, needed, recipient};

use crate::mask::has;
use crate::place::{Place, fill, lowest_free, put};
use crate::roster::Roster;
use crate::sending::Sending;

#[repr(C)]
#[derive(Clone, Copy, PartialEq, Eq)]
pub struct Packet {
    pub sending: Sending,
    // Whether there is a packet at the place: no Option, since C lays it out.
    pub there: bool,
    pub to: u8,
}

#[repr(C)]
#[derive(Clone, Copy)]
pub struct Outgoing {
    pub places: [Packet; Outgoing::PLACES],
}

impl Packet {
    // A free place.
    pub fn free() -> Packet
        ensures { result ≡ free_packet }
    {
        Packet {
            sending: Sending::none(),
            there: false,
            to: 0,
        }
    }

    // A packet for a server.
    pub fn new(to: u8, sending: Sending) -> Packet
        ensures { result ≡ packet_for to sending }
    {
        Packet {
            sending,
            there: true,
            to,
        }
    }
}

impl Place for Packet {
    ghost nothing = { free_packet };

    ghost vacant = { λ p. not p.there };

    // Free where there is no packet.
    fn is_free(self) -> bool {
        !self.there
    }

    ghost nothing_is_vacant = { refl };
}

impl Outgoing {
    pub const PLACES: usize = 64;

    // Every place free.
    #[tactic(auto, unfolding(crate::specs::Outgoing::fresh_outgoing))]
    pub fn fresh() -> Outgoing
        ensures { result ≡ fresh_outgoing }
    {
        Outgoing {
            places: [Packet::free(); Outgoing::PLACES],
        }
    }

    // The packet at a place; past the places, a free one.
    pub fn at(self, place: u8) -> Packet
        ensures { result ≡ packet_at self place }
    {
        self.places
            .get(usize::from(place))
            .copied()
            .unwrap_or(Packet::free())
    }

    // The lowest free place.
    pub fn free(self) -> Option<usize>
        ensures { result ≡ free_outgoing self }
    {
        lowest_free(&self.places)
    }

    // How many places are free.
    pub fn room(self) -> usize
        ensures { result ≡ free_places self }
    {
        self.places.iter().filter(|p| p.is_free()).count()
    }

    // The packet at the lowest free place; where there is none, the packets as they were.
    #[tactic(auto, unfolding(crate::specs::Outgoing::packet_added, crate::specs::Outgoing::packet_added_at, crate::specs::Places::put_at))]
    pub fn post(self, packet: Packet) -> Outgoing
        ensures { result ≡ packet_added self packet }
    {
        let mut o = self;
        fill(&mut o.places, packet);
        o
    }

    // The place freed.
    pub fn clear(self, place: u8) -> Outgoing
        ensures { result ≡ packet_freed self place }
    {
        let mut o = self;
        put(&mut o.places, usize::from(place), Packet::free());
        o
    }

    // A packet to each server outside the mask, the sending one excepted, ascending.
    #[tactic(auto, using(crate::proofs::Sends::sent_more), unfolding(crate::specs::Outgoing::sent_below))]
    pub fn send(self, roster: Roster, mask: u8, server: u8, sending: Sending) -> Outgoing
        ensures { result ≡ sent roster mask server sending self }
    {
        let mut o = self;
        for to in 0..Roster::MOST {
            if is_recipient(roster, mask, server, to) {
                o = o.post(Packet::new(to, sending));
            }
        }
        o
    }
}

// Whether a server is outside the mask, and another than the sending one. The roster, the mask and the server stay
// three parameters, as `recipient`, `needed` and `sent` have them: each caller would make a struct of them anew.
fn is_recipient(roster: Roster, mask: u8, server: u8, to: u8) -> bool
    ensures { result ≡ recipient roster mask server to }
{
    roster.member(to) & !has(mask, to) & (to != server)
}

// How many recipients there are.
pub fn recipients(roster: Roster, mask: u8, server: u8) -> usize
    ensures { result ≡ needed roster mask server }
{
    (0..Roster::MOST)
        .filter(|to| is_recipient(roster, mask, server, *to))
        .count()
}
