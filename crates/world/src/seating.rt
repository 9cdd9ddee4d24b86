// Where a server's boxes and a slot's request stand.
ghost use Rattle.std.specs.Prelude.{◌≡◌, ◌<◌};
ghost use Rattle.world.specs.Boxes.{within, seat};
ghost use Rattle.world.specs.Sizes.{servers};

use crate::World;

// A number below a bound, as it is; any other, as 0.
pub fn within(bound: usize, number: u8) -> usize
    ensures value { result ≡ within bound number }
    ensures bounded { 0 < bound → result < bound }
{
    let i = usize::from(number);
    if i < bound { i } else { 0 }
}

// Where a server's boxes stand; a name that is no server's finds the first.
pub fn seat(server: u8) -> usize
    ensures value { result ≡ seat server }
    ensures bounded { result < servers }
{
    within(World::SERVERS, server)
}
