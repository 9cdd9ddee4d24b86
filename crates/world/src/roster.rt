// Who takes part, and who of them is faulty.
ghost use Rattle.std.specs.Prelude.{◌≡◌};
ghost use Rattle.world.specs.Roster.{member, faulty, strays, faults, threshold, good_roster};

use crate::mask::has;

#[repr(C)]
#[derive(Clone, Copy)]
pub struct Roster {
    pub n: u8,
    pub faulty: u8,
}

impl Roster {
    pub const MOST: u8 = 8;

    // Whether there is a server of this name.
    pub fn member(self, server: u8) -> bool
        ensures { result ≡ member self server }
    {
        server < self.n
    }

    // Whether a server is faulty.
    pub fn is_faulty(self, server: u8) -> bool
        ensures { result ≡ faulty self server }
    {
        has(self.faulty, server)
    }

    // Whether a mask has a bit at n or above.
    pub fn strays(self, mask: u8) -> bool
        ensures { result ≡ strays self mask }
    {
        (0..Roster::MOST).any(|i| has(mask, i) & !self.member(i))
    }

    // f, the most servers that may be faulty.
    pub fn faults(self) -> u8
        ensures { result ≡ faults self }
    {
        self.n.saturating_sub(1) / 2
    }

    // T, the proposals that give a number.
    pub fn threshold(self) -> u32
        ensures { result ≡ threshold self }
    {
        u32::from(self.faults()) + 1
    }

    // Whether a world may start so: 1 to 8 servers, no stray bit, and at most f faulty ones.
    pub fn is_good(self) -> bool
        ensures { result ≡ good_roster self }
    {
        (1 <= self.n)
            & (self.n <= Roster::MOST)
            & !self.strays(self.faulty)
            & (self.faulty.count_ones() <= u32::from(self.faults()))
    }
}
