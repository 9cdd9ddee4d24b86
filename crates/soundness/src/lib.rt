// What a step asks of its world: whether it is sound.
#![tactic(auto)]

ghost use Rattle.std.specs.Prelude.{◌≡◌};
ghost use Rattle.protocol.specs.Sound.{sound};

mod servers;

use world::World;

// Whether a world is sound: only such a world takes a step.
#[tactic(auto, unfolding(protocol::specs::Sound::sound))]
pub fn sound(w: World) -> bool
    ensures { result ≡ sound w }
{
    w.roster.is_good()
        & sound_requests::requests_sound(w.roster, &w.requests)
        & sound_numbers::numbers_sound(&w.executions, w.numbered)
        & servers::servers_sound(&w)
}
