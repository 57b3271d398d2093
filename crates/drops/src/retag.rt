// A change of all records, one by one in a walk over all nodes.
ghost use Rattle.std.specs.Prelude.{◌≡◌, map};
ghost use Rattle.tree.specs.Stores.{each_changed};

use tree::{Store, following};
use walks::change::{Change, retag};

pub fn retag_all<S: Store, C: Change>(store: &mut S, change: &C)
    ensures after { S.Store.meaning store.new ≡ each_changed (C.Change.changed change.now) (S.Store.meaning store.old) }
{
    let mut last = None;
    while let Some(name) = following(store, last) {
        retag(store, change, name);
        last = Some(name);
    }
}
