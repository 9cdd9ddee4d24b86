// The entries that one server holds, each at a stage.
ghost use Rattle.std.specs.Prelude.{◌≡◌, refl, nat_eq, is_some};
ghost use Rattle.world.specs.Hold.{entry_of, free_entry, fresh_hold, entry_at, is_entry, holding, is_ready};
ghost use Rattle.world.specs.Hold.{ready_place, free_hold, entry_added, entry_put};

use crate::place::{Place, fill, lowest_free, put};
use crate::sending::Sending;

#[repr(C)]
#[derive(Clone, Copy, PartialEq, Eq)]
pub struct Entry {
    // 0 until stage three: no Option, since C lays it out.
    pub number: u32,
    pub sending: Sending,
    // 0 at a free place: a number and no enum, since C may give any byte.
    pub stage: u8,
}

#[repr(C)]
#[derive(Clone, Copy)]
pub struct Hold {
    pub places: [Entry; Hold::PLACES],
}

impl Entry {
    pub const FREE: u8 = 0;

    pub const ONE: u8 = 1;

    pub const TWO: u8 = 2;

    pub const THREE: u8 = 3;

    // A free place.
    pub fn free() -> Entry
        ensures { result ≡ free_entry }
    {
        Entry::new(Entry::FREE, Sending::none(), 0)
    }

    // An entry of a sending at a stage, with its number.
    pub fn new(stage: u8, sending: Sending, number: u32) -> Entry
        ensures { result ≡ entry_of stage sending number }
    {
        Entry {
            number,
            sending,
            stage,
        }
    }

    // Whether it is an entry of this sending, at any stage.
    pub fn is_of(self, sending: Sending) -> bool
        ensures { result ≡ is_entry self sending }
    {
        (self.stage != Entry::FREE) & (self.sending == sending)
    }

    // Whether it is at stage three with this number.
    pub fn is_ready(self, number: u32) -> bool
        ensures { result ≡ is_ready self number }
    {
        (self.stage == Entry::THREE) & (self.number == number)
    }
}

impl Place for Entry {
    ghost nothing = { free_entry };

    ghost vacant = { λ e. nat_eq e.stage 0 };

    // Free at no stage.
    fn is_free(self) -> bool {
        self.stage == Entry::FREE
    }

    ghost nothing_is_vacant = { refl };
}

impl Hold {
    pub const PLACES: usize = 64;

    // Every place free.
    #[tactic(auto, unfolding(crate::specs::Hold::fresh_hold))]
    pub fn fresh() -> Hold
        ensures { result ≡ fresh_hold }
    {
        Hold {
            places: [Entry::free(); Hold::PLACES],
        }
    }

    // The entry at a place; past the places, a free one. As in `Outgoing`: one chain, which a function of both would
    // only wrap.
    pub fn at(self, place: u8) -> Entry
        ensures { result ≡ entry_at self place }
    {
        self.places
            .get(usize::from(place))
            .copied()
            .unwrap_or(Entry::free())
    }

    // Whether an entry of this sending is held.
    pub fn holds(self, sending: Sending) -> bool
        ensures { result ≡ holding self sending }
    {
        self.places.iter().any(|e| e.is_of(sending))
    }

    // The lowest place with an entry at stage three that has this number.
    pub fn ready(self, number: u32) -> Option<usize>
        ensures { result ≡ ready_place self number }
    {
        self.places.iter().position(|e| e.is_ready(number))
    }

    // The lowest free place.
    pub fn free(self) -> Option<usize>
        ensures { result ≡ free_hold self }
    {
        lowest_free(&self.places)
    }

    // Whether a place is free.
    pub fn has_room(self) -> bool
        ensures { result ≡ is_some (free_hold self) }
    {
        self.free().is_some()
    }

    // The entry at the lowest free place; where there is none, the hold as it was.
    #[tactic(auto, unfolding(crate::specs::Hold::entry_added, crate::specs::Hold::entry_added_at, crate::specs::Places::put_at))]
    pub fn keep(self, entry: Entry) -> Hold
        ensures { result ≡ entry_added self entry }
    {
        let mut h = self;
        fill(&mut h.places, entry);
        h
    }

    // Another entry at a place. Past the places, nothing changes.
    pub fn put(self, place: usize, entry: Entry) -> Hold
        ensures { result ≡ entry_put self place entry }
    {
        let mut h = self;
        put(&mut h.places, place, entry);
        h
    }
}
