// The packets of one origin in a sound world.
ghost use Rattle.std.specs.Prelude.{◌≡◌};
ghost use Rattle.protocol.specs.Sound.{packet_sound, outgoing_sound};

use sound_names::{Known, zero_packet};
use world::{Outgoing, Packet};

// Whether a place is sound: a packet between servers, of a stored request, or all zeros.
#[tactic(auto, unfolding(protocol::specs::Sound::packet_sound))]
fn packet_sound(known: Known, origin: u8, p: Packet) -> bool
    ensures { result ≡ packet_sound known.roster known.stored origin p }
{
    if !p.there {
        return zero_packet(p);
    }
    known.roster.member(origin) & known.roster.member(p.to) & known.names(p.sending)
}

// Whether every outgoing place of an origin is sound.
pub fn outgoing_sound(known: Known, origin: u8, o: &Outgoing) -> bool
    ensures { result ≡ outgoing_sound known.roster known.stored origin o.now }
{
    o.places.iter().all(|p| packet_sound(known, origin, *p))
}
