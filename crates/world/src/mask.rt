// Masks of servers: bit i, of value 2^i, is server i.
ghost use Rattle.std.specs.Prelude.{◌≡◌};
ghost use Rattle.world.specs.Masks.{has, join};

use crate::roster::Roster;

// Whether a server is in the mask.
#[tactic(auto, using(crate::proofs::Bits::has_past, crate::proofs::Bits::has_bit))]
pub fn has(mask: u8, server: u8) -> bool
    ensures { result ≡ has mask server }
{
    if Roster::MOST <= server {
        return false;
    }
    (mask >> server) & 1 == 1
}

// The mask with a server in it.
#[tactic(auto, using(crate::proofs::Bits::join_past, crate::proofs::Bits::join_bit))]
pub fn join(mask: u8, server: u8) -> u8
    ensures { result ≡ join mask server }
{
    if Roster::MOST <= server {
        return mask;
    }
    mask | (1 << server)
}
