// What the sendings of packets, entries and items name: servers, slots and executions.
ghost use Rattle.std.specs.Prelude.{◌≡◌, is_some};
ghost use Rattle.world.specs.Roster.{correct};
ghost use Rattle.protocol.specs.Names.{names, table_of, own_execution};

use world::{Executions, Roster, Sending, World, seat};

// What a world knows when a sending is tested: its servers, how many requests are stored, the numbers given.
#[derive(Clone, Copy)]
pub struct Known {
    pub roster: Roster,
    pub stored: u8,
    pub numbered: u32,
}

impl Known {
    // Whether the sender is a server and the slot that of a stored request.
    pub fn names(self, sending: Sending) -> bool
        ensures { result ≡ names self.roster self.stored sending }
    {
        self.roster.member(sending.sender) & (sending.slot < self.stored)
    }
}

// Whether a server takes part and is not faulty.
pub fn is_correct(roster: Roster, server: u8) -> bool
    ensures { result ≡ correct roster server }
{
    roster.member(server) & !roster.is_faulty(server)
}

// The executions of a sender.
pub fn table_of(tables: &[Executions; World::SERVERS], sender: u8) -> &Executions
    ensures { result.now ≡ table_of tables.now sender }
{
    &tables[seat(sender)]
}

// The execution of a sending, among its sender's.
pub fn own_execution(t: &Executions, sending: Sending) -> Option<usize>
    ensures { result ≡ own_execution t.now sending }
{
    if sending.sender < Roster::MOST {
        return t.find(sending.id);
    }
    None
}

// Whether there is such an execution.
pub fn has_execution(t: &Executions, sending: Sending) -> bool
    ensures { result ≡ is_some (own_execution t.now sending) }
{
    own_execution(t, sending).is_some()
}
