// What one server has delivered, in order.
ghost use Rattle.std.specs.Prelude.{◌≡◌};
ghost use Rattle.world.specs.Delivered.{fresh_delivered, next_of, appended};

use crate::execution::Executions;
use crate::place::put;
use crate::roster::Roster;
use crate::sending::Sending;

// An array with its count beside it: C lays it out, and there is no heap.
#[repr(C)]
#[derive(Clone, Copy)]
pub struct Delivered {
    pub items: [Sending; Delivered::MOST],
    pub count: u32,
}

impl Delivered {
    // As many as there can be executions.
    pub const MOST: usize = Roster::MOST as usize * Executions::MOST;

    // Nothing delivered yet.
    #[tactic(auto, unfolding(crate::specs::Delivered::fresh_delivered))]
    pub fn fresh() -> Delivered
        ensures { result ≡ fresh_delivered }
    {
        Delivered {
            items: [Sending::none(); Delivered::MOST],
            count: 0,
        }
    }

    // The server's next number.
    pub fn next(self) -> u32
        ensures { result ≡ next_of self }
    {
        self.count.wrapping_add(1)
    }

    // One more item.
    pub fn append(self, item: Sending) -> Delivered
        ensures { result ≡ appended self item }
    {
        let mut d = self;
        d.count = self.next();
        // A cast: `usize` has no `From<u32>`.
        put(&mut d.items, self.count as usize, item);
        d
    }
}
