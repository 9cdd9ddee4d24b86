// The orderer: the executions of one sender, oldest first, and the numbers that they get.
ghost use Rattle.std.specs.Prelude.{◌≡◌};
ghost use Rattle.world.specs.Executions.{unused_execution, fresh_executions, execution_of, opened, called, ordered};

use crate::mask::join;
use crate::roster::Roster;
use fips180::Digest;

#[repr(C)]
#[derive(Clone, Copy, PartialEq, Eq)]
pub struct Execution {
    // 0 until it is numbered: no Option, since C lays it out.
    pub number: u32,
    pub id: u16,
    // The servers that have called, and those of them that proposed while it was unnumbered.
    pub called: u8,
    pub mask: u8,
    pub digest: [u8; Digest::BYTES],
}

// An array with its count beside it: C lays it out, and there is no heap.
#[repr(C)]
#[derive(Clone, Copy)]
pub struct Executions {
    pub table: [Execution; Executions::MOST],
    pub count: u8,
}

// An execution and the numbers given, after the orderer has looked whether it gets the next one.
#[derive(Clone, Copy)]
pub struct Ordered {
    pub execution: Execution,
    pub numbered: u32,
}

impl Execution {
    pub const UNNUMBERED: u32 = 0;

    // A place of the table that is not used yet.
    pub fn unused() -> Execution
        ensures { result ≡ unused_execution }
    {
        Execution {
            number: Execution::UNNUMBERED,
            id: 0,
            called: 0,
            mask: 0,
            digest: [0; Digest::BYTES],
        }
    }

    // A new execution: its sender has called and proposed.
    pub fn open(sender: u8, id: u16, digest: [u8; Digest::BYTES]) -> Execution
        ensures { result ≡ opened sender id digest }
    {
        let own = join(0, sender);
        Execution {
            number: Execution::UNNUMBERED,
            id,
            called: own,
            mask: own,
            digest,
        }
    }

    // A server's call recorded; its proposal too while there is no number.
    pub fn call(self, server: u8) -> Execution
        ensures { result ≡ called self server }
    {
        let called = join(self.called, server);
        let mask = if self.number == Execution::UNNUMBERED {
            join(self.mask, server)
        } else {
            self.mask
        };
        Execution {
            called,
            mask,
            ..self
        }
    }

    // When an unnumbered execution's mask has T members, it gets the next number.
    #[tactic(auto, unfolding(crate::specs::Executions::ordered))]
    pub fn order(self, roster: Roster, numbered: u32) -> Ordered
        ensures { result ≡ ordered roster self numbered }
    {
        if (self.number == Execution::UNNUMBERED) & (self.mask.count_ones() == roster.threshold()) {
            let number = numbered.wrapping_add(1);
            return Ordered {
                execution: Execution { number, ..self },
                numbered: number,
            };
        }
        Ordered {
            execution: self,
            numbered,
        }
    }
}

impl Executions {
    pub const MOST: usize = 16;

    // No execution yet.
    #[tactic(auto, unfolding(crate::specs::Executions::fresh_executions))]
    pub fn fresh() -> Executions
        ensures { result ≡ fresh_executions }
    {
        Executions {
            table: [Execution::unused(); Executions::MOST],
            count: 0,
        }
    }

    // The place of the execution that has this id.
    pub fn find(self, id: u16) -> Option<usize>
        ensures { result ≡ execution_of self id }
    {
        self.table
            .iter()
            .take(usize::from(self.count))
            .position(|x| x.id == id)
    }
}
