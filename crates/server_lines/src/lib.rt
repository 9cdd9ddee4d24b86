// The lines of the servers, each written to a text.
#![tactic(auto)]

ghost use Rattle.std.specs.Prelude.{◌+◌, ◌*◌, ◌≤◌, length};
ghost use Rattle.world.specs.Sizes.{servers};
ghost use Rattle.writing.specs.Writing.{Writes};
ghost use Rattle.protocol.specs.Longest.{item_most, server_most, servers_most, listing_most};
ghost use Rattle.protocol.specs.Listing.{item_text, item_texts, server_line, server_lines};

use world::{Delivered, Roster, Sending, World};
use writing::Text;

// SENDER.ID.SLOT, after a blank.
fn put_item(text: &mut Text<'_>, item: Sending)
    requires { text.old.at ≤ listing_most }
    ensures wrote { Writes text.old (item_text item) text.new }
    ensures upper_bound { text.new.at ≤ text.old.at + item_most }
{
    text.byte(b' ');
    text.number(item.sender);
    text.byte(b'.');
    text.number(item.id);
    text.byte(b'.');
    text.number(item.slot);
}

// Items, one after the other.
#[tactic(auto, unfolding(protocol::specs::Listing::item_texts))]
fn put_items(text: &mut Text<'_>, items: &[Sending])
    requires { text.old.at + length items.now * item_most ≤ listing_most }
    ensures wrote { Writes text.old (item_texts items.now) text.new }
    ensures upper_bound { text.new.at ≤ text.old.at + length items.now * item_most }
{
    for item in items {
        put_item(text, *item);
    }
}

// `server S faulty`, or `server S COUNT` and the items.
fn put_server(text: &mut Text<'_>, roster: Roster, server: u8, d: Delivered)
    requires { text.old.at + server_most ≤ listing_most }
    ensures wrote { Writes text.old (server_line roster server d) text.new }
    ensures upper_bound { text.new.at ≤ text.old.at + server_most }
{
    text.word(b"server ");
    text.number(server);
    if roster.is_faulty(server) {
        text.word(b" faulty\n");
        return;
    }
    text.byte(b' ');
    text.number(d.count);
    // All that are counted, and there is room for no more. A cast, since `usize` has no `From<u32>`.
    let shown = (d.count as usize).min(Delivered::MOST);
    put_items(text, &d.items[..shown]);
    text.byte(b'\n');
}

// The lines of all servers, ascending.
#[tactic(auto, unfolding(protocol::specs::Listing::server_lines))]
pub fn put_servers(text: &mut Text<'_>, w: World)
    requires servers_most_bound { text.old.at + servers_most ≤ listing_most }
    requires n_le_servers { w.roster.n ≤ servers }
    ensures wrote { Writes text.old (server_lines w w.roster.n) text.new }
    ensures upper_bound { text.new.at ≤ text.old.at + servers_most }
{
    for s in 0..w.roster.n {
        put_server(text, w.roster, s, w.delivered[usize::from(s)]);
    }
}
