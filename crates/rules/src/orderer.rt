// The orderer: an execution made, a call recorded.
ghost use Rattle.std.specs.Prelude.{◌≡◌, ◌<◌};
ghost use Rattle.world.specs.Sizes.{executions_most};
ghost use Rattle.protocol.specs.Rules.{made, recorded};

use fips180::Digest;
use protocol::Boxes;
use world::{Execution, Roster};

// The execution after the sender's others, numbered at once where T is 1.
#[tactic(auto, unfolding(protocol::specs::Rules::made))]
pub(crate) fn make(roster: Roster, sender: u8, id: u16, digest: [u8; Digest::BYTES], b: &mut Boxes)
    requires { b.old.executions.count < executions_most }
    ensures { b.new ≡ made roster sender id digest b.old }
{
    let o = Execution::open(sender, id, digest).order(roster, b.numbered);
    b.executions.table[usize::from(b.executions.count)] = o.execution;
    b.executions.count += 1;
    b.numbered = o.numbered;
}

// A server's call at the execution of a place.
#[tactic(auto, unfolding(protocol::specs::Rules::recorded))]
pub(crate) fn record(roster: Roster, server: u8, place: usize, b: &mut Boxes)
    requires { place < executions_most }
    ensures { b.new ≡ recorded roster server place b.old }
{
    let called = b.executions.table[place].call(server);
    let o = called.order(roster, b.numbered);
    b.executions.table[place] = o.execution;
    b.numbered = o.numbered;
}
