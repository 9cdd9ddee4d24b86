// What a packet tells, an entry is of and a delivered item is: the sender and id of an execution, and a slot.
ghost use Rattle.std.specs.Prelude.{◌≡◌};
ghost use Rattle.world.specs.Sending.{no_sending};

#[repr(C)]
#[derive(Clone, Copy, PartialEq, Eq)]
pub struct Sending {
    pub id: u16,
    pub sender: u8,
    pub slot: u8,
}

impl Sending {
    // What a free or unused place holds.
    pub fn none() -> Sending
        ensures { result ≡ no_sending }
    {
        Sending {
            id: 0,
            sender: 0,
            slot: 0,
        }
    }
}
