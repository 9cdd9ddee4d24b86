// The boxes of one server in a quiet world.
#![tactic(auto)]

ghost use Rattle.std.specs.Prelude.{◌≡◌};
ghost use Rattle.protocol.specs.Names.{own_execution};
ghost use Rattle.protocol.specs.Quiet.{outgoing_quiet, is_numbered, stirs, hold_quiet, server_quiet};

use sound_names::{has_execution, is_correct, own_execution, table_of};
use world::{Entry, Execution, Executions, Hold, Outgoing, Roster, Sending, World, seat};

// Whether no outgoing place has a packet for a correct server.
fn outgoing_quiet(roster: Roster, o: &Outgoing) -> bool
    ensures { result ≡ outgoing_quiet roster o.now }
{
    o.places
        .iter()
        .all(|p| !(p.there & is_correct(roster, p.to)))
}

// Whether the execution of a sending is numbered.
#[tactic(auto, using(protocol::proofs::Naming::own_in))]
fn is_numbered(t: &Executions, sending: Sending) -> bool
    ensures { result ≡ is_numbered t.now (own_execution t.now sending) }
{
    own_execution(t, sending).is_some_and(|k| t.table[k].number != Execution::UNNUMBERED)
}

// Whether its server could go on with an entry; the executions are those of the entry's sender.
#[tactic(auto, unfolding(protocol::specs::Quiet::stirs))]
fn stirs(t: &Executions, next: u32, e: Entry) -> bool
    ensures { result ≡ stirs t.now next e }
{
    ((e.stage == Entry::ONE) & has_execution(t, e.sending))
        | ((e.stage == Entry::TWO) & is_numbered(t, e.sending))
        | ((e.stage == Entry::THREE) & (e.number == next))
}

// Whether a server whose next number is given could go on with none of its entries.
fn hold_quiet(tables: &[Executions; World::SERVERS], next: u32, h: &Hold) -> bool
    ensures { result ≡ hold_quiet tables.now next h.now }
{
    h.places
        .iter()
        .all(|e| !stirs(table_of(tables, e.sending.sender), next, *e))
}

// Whether no packet of a server goes to a correct one, and the server, if correct, could not go on.
#[tactic(auto, unfolding(protocol::specs::Quiet::server_quiet))]
pub fn server_quiet(w: &World, server: u8) -> bool
    ensures { result ≡ server_quiet w.now server }
{
    let i = seat(server);
    let next = w.delivered[i].next();
    let correct = is_correct(w.roster, server);
    outgoing_quiet(w.roster, &w.outgoing[i])
        & (!correct | hold_quiet(&w.executions, next, &w.holds[i]))
}
