// By rule a walk asks for the next name until there is none.
// The walk over all nodes of a store, in rising order: start with no name, and go on with each name that it gives, until there is none.
ghost use Rattle.std.specs.Prelude.{◌≡◌};
ghost use Rattle.tree.specs.Walk.{name_after};

use crate::name::ROOT;
use crate::store::Store;

// The name that follows `last`: the least of all where `last` is `None`, which can only be the root's.
pub fn following<S: Store>(store: &S, last: Option<u64>) -> Option<u64>
    ensures answer { result ≡ name_after last (S.Store.meaning store.now).records }
{
    match last {
        Some(name) => store.next_above(name),
        None if store.count() > 0 => Some(ROOT),
        None => None,
    }
}
