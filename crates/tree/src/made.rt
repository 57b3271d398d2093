// How stores are made. A trait of its own, since nothing that works on a store asks how it was made.
ghost use Rattle.std.specs.Prelude.{◌≡◌, min, [], IfOk};

use crate::store::Store;
use std::alloc::{AllocError, Global};

pub trait Made: Store {
    // An empty store for `rows` records, or for the largest number where `rows` is more. All its memory is reserved here.
    fn new(heap: Global, rows: usize) -> Result<Self, AllocError>
        ensures made { IfOk result (λ s. Self.meaning s ≡ record { records = []; most = min rows Self.LARGEST }) };
}
