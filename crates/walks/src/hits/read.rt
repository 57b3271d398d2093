// Making and reading what is found.
ghost use Rattle.std.specs.Prelude.{◌≡◌, [], length, IfOk};
ghost use Rattle.walks.specs.Buffers.{filled};
ghost use Rattle.walks.specs.Hits.{hit_names};

use crate::fill::fill;
use crate::hits::Hits;
use std::alloc::{AllocError, Global};

const MOST: usize = 1_024;

impl Hits {
    // Nothing is found yet.
    pub fn new(heap: Global) -> Result<Hits, AllocError>
        ensures { IfOk result (λ hits. hit_names hits ≡ []) }
    {
        let names = Vec::with_capacity(heap, MOST)?;
        Ok(Hits { names })
    }

    pub fn len(&self) -> usize
        ensures { result ≡ length (hit_names self.now) }
    {
        self.names.len()
    }

    pub fn as_slice(&self) -> &[u64]
        ensures { result.now ≡ hit_names self.now }
    {
        self.names.as_slice()
    }

    // Writes the names to the start of the buffer, as far as there is room.
    pub fn write(&self, buffer: &mut [u64])
        ensures { buffer.new ≡ filled (hit_names self.now) buffer.old }
    {
        fill(self.as_slice(), buffer);
    }
}
