// The executions of one sender in a sound world.
#![tactic(auto)]

ghost use Rattle.std.specs.Prelude.{◌≡◌, ℕ, ◌≤◌};
ghost use Rattle.search.specs.Search.{every};
ghost use Rattle.world.specs.Executions.{execution_at};
ghost use Rattle.world.specs.Sizes.{executions_most};
ghost use Rattle.protocol.specs.Sound.{lies_within, masks_sound, order_sound, execution_sound, place_sound, new_id};
ghost use Rattle.protocol.specs.Sound.{executions_sound};

use sound_names::{Known, is_correct, keys_differ, used_below, zero_execution};
use world::{Execution, Executions, Roster, has};

// Whether every server of the mask has called.
fn lies_within(mask: u8, called: u8) -> bool
    ensures { result ≡ lies_within mask called }
{
    (0..Roster::MOST).all(|i| !has(mask, i) | has(called, i))
}

// Whether the masks have no bit at n or above, one lies within the other, and the sender is in both.
#[tactic(auto, unfolding(protocol::specs::Sound::masks_sound))]
fn masks_sound(roster: Roster, sender: u8, x: Execution) -> bool
    ensures { result ≡ masks_sound roster sender x }
{
    !roster.strays(x.called)
        & !roster.strays(x.mask)
        & lies_within(x.mask, x.called)
        & has(x.called, sender)
        & has(x.mask, sender)
}

// Whether the execution is numbered exactly when its mask has T members, and from the numbers given.
#[tactic(auto, unfolding(protocol::specs::Sound::order_sound))]
fn order_sound(known: Known, x: Execution) -> bool
    ensures { result ≡ order_sound known.roster known.numbered x }
{
    let reached = x.mask.count_ones() == known.roster.threshold();
    if x.number == Execution::UNNUMBERED {
        return !reached;
    }
    reached & (x.number <= known.numbered)
}

// Whether the execution at place k is sound.
#[tactic(auto, unfolding(protocol::specs::Sound::execution_sound))]
fn execution_sound(known: Known, sender: u8, k: usize, x: Execution) -> bool
    ensures { result ≡ execution_sound known.roster known.numbered sender k x }
{
    masks_sound(known.roster, sender, x)
        & order_sound(known, x)
        & (!is_correct(known.roster, sender) | (usize::from(x.id) == k.saturating_add(1)))
}

// Whether every place is sound, used or not.
fn places_sound(known: Known, sender: u8, t: &Executions) -> bool
    ensures { result ≡
        every
        (λ (k : ℕ). place_sound known.roster known.numbered sender t.now.count k (execution_at t.now k))
        executions_most }
{
    let made = usize::from(t.count);
    used_below(
        &t.table,
        made,
        |k, x| execution_sound(known, sender, k, *x),
        |x| zero_execution(*x),
    )
}

// Whether the ids of the executions differ.
fn ids_differ(t: &Executions) -> bool
    requires { t.now.count ≤ executions_most }
    ensures { result ≡ every (λ (k : ℕ). new_id t.now k) t.now.count }
{
    let (used, _) = t.table.split_at(usize::from(t.count));
    keys_differ(used, |a, b| a.id == b.id)
}

// Whether the executions of a sender are sound.
#[tactic(auto, unfolding(protocol::specs::Sound::executions_sound))]
pub fn executions_sound(known: Known, sender: u8, t: &Executions) -> bool
    ensures { result ≡ executions_sound known.roster known.numbered sender t.now }
{
    if Executions::MOST < usize::from(t.count) {
        return false;
    }
    (known.roster.member(sender) | (t.count == 0)) & places_sound(known, sender, t) & ids_differ(t)
}
