// How a listing is made: all the memory that it ever uses is reserved here.
use crate::listing::Listing;
use std::alloc::{AllocError, Global};
use tree::{Made, Store};

impl Made for Listing {
    fn new(heap: Global, rows: usize) -> Result<Listing, AllocError> {
        let limit = rows.min(Self::LARGEST);
        let rows = Vec::with_capacity(heap, limit)?;
        Ok(Listing { rows, limit })
    }
}
