// The boxes of the servers in a sound world.
ghost use Rattle.std.specs.Prelude.{◌≡◌};
ghost use Rattle.protocol.specs.Sound.{server_sound, servers_sound};

use sound_boxes::{delivered_sound, hold_sound, outgoing_sound};
use sound_executions::executions_sound;
use sound_names::Known;
use world::{Roster, World, seat};

// Whether the boxes of a server are sound.
#[tactic(auto, unfolding(protocol::specs::Sound::server_sound))]
fn server_sound(w: &World, server: u8) -> bool
    ensures { result ≡ server_sound w.now server }
{
    let known = Known {
        roster: w.roster,
        stored: w.requests.count,
        numbered: w.numbered,
    };
    let i = seat(server);
    executions_sound(known, server, &w.executions[i])
        & outgoing_sound(known, server, &w.outgoing[i])
        & hold_sound(known, &w.executions, server, &w.holds[i])
        & delivered_sound(known, server, &w.delivered[i])
}

// Whether the boxes of every server are sound.
pub(crate) fn servers_sound(w: &World) -> bool
    ensures { result ≡ servers_sound w.now }
{
    (0..Roster::MOST).all(|s| server_sound(w, s))
}
