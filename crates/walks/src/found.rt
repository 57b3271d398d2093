// The nodes that a query finds, by a walk over all nodes that needs no memory.
ghost use Rattle.std.specs.Prelude.{◌≡◌, length, slice_set};
ghost use Rattle.tree.specs.Trees.{actual};
ghost use Rattle.model.specs.Rules as rules;
ghost use Rattle.walks.specs.Buffers.{filled};

use crate::climb::is_found;
use path::query::Query;
use tree::{Store, following};

// How many nodes are found.
pub fn count_found<S: Store>(store: &S, query: &Query) -> usize
    ensures answer { result ≡ length (rules.query (actual (S.Store.meaning store.now).records) query.now.top query.now.path) }
{
    let mut count = 0;
    let mut last = None;
    while let Some(name) = following(store, last) {
        if is_found(store, query, name) {
            count += 1;
        }
        last = Some(name);
    }
    count
}

// Writes one name where there is room for it.
fn put(buffer: &mut [u64], at: usize, name: u64)
    ensures { buffer.new ≡ slice_set buffer.old at name }
{
    if at < buffer.len() {
        buffer[at] = name;
    }
}

// Writes the names of the nodes that are found, rising, to the start of the buffer, as far as there is room.
pub fn write_found<S: Store>(store: &S, query: &Query, buffer: &mut [u64])
    ensures buffer { buffer.new ≡ filled (rules.query (actual (S.Store.meaning store.now).records) query.now.top query.now.path) buffer.old }
{
    let mut written = 0;
    let mut last = None;
    while let Some(name) = following(store, last) {
        if is_found(store, query, name) {
            put(buffer, written, name);
            written += 1;
        }
        last = Some(name);
    }
}
