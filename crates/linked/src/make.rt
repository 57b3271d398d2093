// How a linked store is made: all the memory that it ever uses is reserved here.
use crate::Linked;
use std::alloc::{AllocError, Global};
use tree::{Made, Store};

impl Made for Linked {
    fn new(heap: Global, rows: usize) -> Result<Linked, AllocError> {
        let limit = rows.min(Self::LARGEST);
        let rows = Vec::with_capacity(heap, limit)?;
        Ok(Linked { rows, limit })
    }
}
