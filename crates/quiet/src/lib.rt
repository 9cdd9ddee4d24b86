// What a caller may ask of a world: whether it is quiet.
#![tactic(auto)]

ghost use Rattle.std.specs.Prelude.{◌≡◌};
ghost use Rattle.protocol.specs.Quiet.{quiet};

use quiet_boxes::server_quiet;
use world::{Roster, World};

// Whether a world is quiet: nothing is under way to a correct server, and none of them could go on.
pub fn quiet(w: World) -> bool
    ensures { result ≡ quiet w }
{
    (0..Roster::MOST).all(|s| server_quiet(&w, s))
}
