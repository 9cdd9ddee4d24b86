// The entries that one server holds in a sound world.
ghost use Rattle.std.specs.Prelude.{◌≡◌};
ghost use Rattle.protocol.specs.Sound.{stage_sound, entry_sound, hold_sound};

use sound_names::{Known, has_execution, table_of, zero_entry};
use world::{Entry, Executions, Hold, World};

// Whether the entry has a number, from 1 to M, exactly at stage three.
#[tactic(auto, unfolding(protocol::specs::Sound::stage_sound))]
fn stage_sound(numbered: u32, e: Entry) -> bool
    ensures { result ≡ stage_sound numbered e }
{
    if e.stage == Entry::THREE {
        return (1 <= e.number) & (e.number <= numbered);
    }
    e.number == 0
}

// Whether a place is sound, an entry or all zeros; the executions are those of the entry's sender.
#[tactic(auto, unfolding(protocol::specs::Sound::entry_sound))]
fn entry_sound(known: Known, server: u8, t: &Executions, e: Entry) -> bool
    ensures { result ≡ entry_sound known.roster known.stored known.numbered server t.now e }
{
    if e.stage == Entry::FREE {
        return zero_entry(e);
    }
    (e.stage <= Entry::THREE)
        & known.roster.member(server)
        & known.names(e.sending)
        & (!(Entry::ONE < e.stage) | has_execution(t, e.sending))
        & stage_sound(known.numbered, e)
}

// Whether every hold place of a server is sound.
pub fn hold_sound(known: Known, tables: &[Executions; World::SERVERS], server: u8, h: &Hold) -> bool
    ensures { result ≡ hold_sound known.roster known.stored known.numbered tables.now server h.now }
{
    h.places.iter().all(|e| entry_sound(known, server, table_of(tables, e.sending.sender), *e))
}
