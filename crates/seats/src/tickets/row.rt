// The tickets of a list, one after another.
ghost use Rattle.std.specs.Prelude.{◌≡◌, ◌≤◌, [], ◌∷◌, ◌++◌, length, if◌then◌else◌, Ok, Err, nat_lt};
ghost use Rattle.seats.specs.Listed.{listed};

use crate::tickets::Tickets;
use bounded::{Bounded, Full};

impl Tickets {
    // No ticket.
    pub fn new() -> Tickets
        ensures { listed result ≡ [] }
    {
        Tickets {
            list: Bounded::new(0),
        }
    }

    // One ticket more at the end, where there are not 32 yet.
    pub fn push(&mut self, ticket: u32)
        ensures { listed self.new ≡ (if nat_lt (length (listed self.old)) 32 then listed self.old ++ ticket ∷ [] else listed self.old) }
    {
        let _ = self.list.push(ticket);
    }

    // The same, and whether there was room.
    pub fn try_push(&mut self, ticket: u32) -> Result<(), Full>
        ensures answer { result ≡ (if nat_lt (length (listed self.old)) 32 then Ok tt else Err (record {})) }
        ensures after { listed self.new ≡ (if nat_lt (length (listed self.old)) 32 then listed self.old ++ ticket ∷ [] else listed self.old) }
    {
        self.list.push(ticket)
    }

    pub fn len(&self) -> usize
        ensures value { result ≡ length (listed self.now) }
        ensures bound { result ≤ 32 }
    {
        self.list.len()
    }

    pub fn as_slice(&self) -> &[u32]
        ensures { result.now ≡ listed self.now }
    {
        self.list.as_slice()
    }
}
