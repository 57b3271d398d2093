// Making and reading a lock book.
ghost use Rattle.std.specs.Prelude.{◌≡◌, ◌+◌, ◌≤◌, not, [], map, length, IfOk, nat_lt};
ghost use Rattle.book.specs.Rows.{row_of, held_of, has_room};

use crate::book::Book;
use crate::lock::LockRow;
use std::alloc::{AllocError, Global};

const MOST: usize = 256;

impl Book {
    // An empty book.
    pub fn new(heap: Global) -> Result<Book, AllocError>
        ensures { IfOk result (λ book. held_of book ≡ []) }
    {
        let rows = Vec::with_capacity(heap, MOST)?;
        Ok(Book { rows })
    }

    pub fn len(&self) -> usize
        ensures value { result ≡ length (held_of self.now) }
        ensures bound { result ≤ 256 }
    {
        self.rows.len()
    }

    // Whether so many rows are free.
    pub fn has_room(&self, count: usize) -> bool
        ensures { result ≡ has_room self.now count }
    {
        count <= MOST - self.len()
    }

    pub fn rows(&self) -> &[LockRow]
        ensures { map row_of result.now ≡ held_of self.now }
    {
        self.rows.as_slice()
    }
}
