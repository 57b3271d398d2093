// How a desk is made.
ghost use Rattle.std.specs.Prelude.{◌≡◌, ℕ, List, IfOk};
ghost use Rattle.tree.specs.declared.record.Record.{Record};
ghost use Rattle.tree.specs.Lists.{all_of};
ghost use Rattle.model.specs.Scheduler.{untouched, make};
ghost use Rattle.desk.specs.States.{state};

use crate::desk::Desk;
use arrows::arrows::Arrows;
use book::book::Book;
use seats::seats::Seats;
use std::alloc::{AllocError, Global};
use std::num::NonZeroU32;

impl Desk {
    // No ticket is open yet, and the first to open is `first`, none where it is 0. All memory is reserved here.
    pub fn new(heap: Global, first: u32, fit: bool) -> Result<Desk, AllocError>
        ensures { IfOk result (λ desk. (rs : List Record) (limit : ℕ) → fit ≡ all_of (untouched first) rs → state rs limit desk ≡ make (record { store = rs; limit = limit; first = first })) }
    {
        let book = Book::new(heap)?;
        Ok(Desk {
            seats: Seats::new(),
            book,
            arrows: Arrows::new(),
            next: NonZeroU32::new(first),
            done: 0,
            fit,
        })
    }
}
