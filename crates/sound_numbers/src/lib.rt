// The numbers given in a sound world: 1 to M, each once.
#![tactic(auto)]

ghost use Rattle.std.specs.Prelude.{◌≡◌, ℕ, ◌<◌, eqb, get_or, count_by};
ghost use Rattle.world.specs.Sizes.{delivered_most};
ghost use Rattle.protocol.specs.Sound.{number_at, numbers_sound};

use world::{Delivered, Executions, World};

// The numbers of all executions, one sender after the other.
fn numbers_of(tables: &[Executions; World::SERVERS]) -> [u32; Delivered::MOST]
    ensures { (i : ℕ) → i < delivered_most → get_or result i 0 ≡ number_at tables.now i }
{
    std::array::from_fn(|i| tables[i / Executions::MOST].table[i % Executions::MOST].number)
}

// How many of them are this number.
fn times(numbers: &[u32; Delivered::MOST], number: u32) -> usize
    ensures { result ≡ count_by (λ (n : ℕ). eqb n number) numbers.now }
{
    numbers.iter().filter(|n| **n == number).count()
}

// Whether the numbers given are 1 to M, each once.
#[tactic(auto, unfolding(protocol::specs::Sound::numbers_sound))]
pub fn numbers_sound(tables: &[Executions; World::SERVERS], numbered: u32) -> bool
    ensures { result ≡ numbers_sound tables.now numbered }
{
    // A cast: `usize` has no `From<u32>`.
    if Delivered::MOST < numbered as usize {
        return false;
    }
    let numbers = numbers_of(tables);
    (0..numbered).all(|k| times(&numbers, k + 1) == 1)
}
