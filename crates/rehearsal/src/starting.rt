// A start.
ghost use Rattle.std.specs.Prelude.{◌≡◌};
ghost use Rattle.protocol.specs.Runs.{start_of, start_told};

use format::Refusal;
use world::{Roster, World};

// A fresh world; 25 where no world may start so.
#[tactic(auto, unfolding(protocol::specs::Runs::start_of, search::specs::Tests::must))]
pub fn start(n: u8, faulty: u8) -> Result<World, Refusal>
    ensures { start_told result ≡ start_of n faulty }
{
    let roster = Roster { n, faulty };
    if !roster.is_good() {
        return Err(Refusal::BadStart);
    }
    Ok(World::fresh(n, faulty))
}
