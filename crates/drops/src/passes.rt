// Dropping all records that are chosen, children first whatever their names.
ghost use Rattle.std.specs.Prelude.{◌≡◌, if◌then◌else◌};
ghost use Rattle.tree.specs.Records.{without};
ghost use Rattle.tree.specs.Stores.{holding};
ghost use Rattle.drops.specs.Doomed.{may_drop, Dropped, Drops};

use tree::{Store, following};
use walks::choice::{Choice, chosen_at};

// Drops the record where it is chosen and no other record's parent; whether it did.
fn drop_leaf<S: Store, C: Choice>(store: &mut S, choice: &C, name: u64) -> bool
    ensures answer { result ≡ may_drop (C.Choice.chosen choice.now) name (S.Store.meaning store.old).records }
    ensures after { S.Store.meaning store.new ≡ holding (S.Store.meaning store.old) (if result then without name (S.Store.meaning store.old).records else (S.Store.meaning store.old).records) }
{
    chosen_at(store, choice, name) && store.discard(name).is_ok()
}

// One walk that drops what it can; whether it dropped any.
fn drop_leaves<S: Store, C: Choice>(store: &mut S, choice: &C) -> bool
    ensures after { Dropped (C.Choice.chosen choice.now) (S.Store.meaning store.old).records (S.Store.meaning store.new).records result }
    ensures same { (S.Store.meaning store.new).most ≡ (S.Store.meaning store.old).most }
{
    let mut any = false;
    let mut last = None;
    while let Some(name) = following(store, last) {
        if drop_leaf(store, choice, name) {
            any = true;
        }
        last = Some(name);
    }
    any
}

// Drops every record that is chosen, where the children of a chosen record are chosen.
pub fn drop_all<S: Store, C: Choice>(store: &mut S, choice: &C)
    ensures { Drops (C.Choice.chosen choice.now) (S.Store.meaning store.old) (S.Store.meaning store.new) }
{
    while drop_leaves(store, choice) {}
}
