// What one server has delivered in a sound world.
ghost use Rattle.std.specs.Prelude.{◌≡◌, ℕ};
ghost use Rattle.search.specs.Search.{every};
ghost use Rattle.world.specs.Boxes.{item_at};
ghost use Rattle.world.specs.Sizes.{delivered_most};
ghost use Rattle.protocol.specs.Sound.{item_sound, delivered_sound};

use sound_names::{Known, used_below, zero_sending};
use world::Delivered;

// Whether every place is sound, used or not.
fn items_sound(known: Known, d: &Delivered) -> bool
    ensures { result ≡
        every (λ (k : ℕ). item_sound known.roster known.stored d.now.count k (item_at d.now k)) delivered_most }
{
    // A cast: `usize` has no `From<u32>`.
    let done = d.count as usize;
    used_below(&d.items, done, |_, i| known.names(*i), |i| zero_sending(*i))
}

// Whether what a server has delivered is sound.
#[tactic(auto, unfolding(protocol::specs::Sound::delivered_sound))]
pub fn delivered_sound(known: Known, server: u8, d: &Delivered) -> bool
    ensures { result ≡ delivered_sound known.roster known.stored known.numbered server d.now }
{
    (d.count <= known.numbered)
        & (known.roster.member(server) | (d.count == 0))
        & items_sound(known, d)
}
