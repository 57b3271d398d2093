// Changes of a record's mark and note, and making one in a store.
ghost use Rattle.std.specs.Prelude.{◌≡◌, map, if◌then◌else◌, nat_eq};
ghost use Rattle.tree.specs.declared.record.Record.{Record};
ghost use Rattle.tree.specs.Records.{with_tag};
ghost use Rattle.tree.specs.Stores.{each_changed};

use tree::{Record, Store};

// A trait and no closure, as `Choice` is.
pub trait Change {
    // The record after the change.
    ghost changed: { Self → Record → Record };

    // The mark and the note that the record gets, as `tag` takes them.
    fn tags(&self, node: &Record) -> (u32, u32)
        ensures { with_tag result.0 result.1 node.now ≡ changed self.now node.now };

    // A record keeps its name.
    ghost keeps: { (c : Self) (r : Record) → (changed c r).name ≡ r.name };
}

// Changes the record of this name, where the store has one.
pub fn retag<S: Store, C: Change>(store: &mut S, change: &C, name: u64)
    ensures after { S.Store.meaning store.new ≡ each_changed (λ r. (if nat_eq r.name name then C.Change.changed change.now r else r)) (S.Store.meaning store.old) }
{
    if let Some(record) = store.look(name) {
        let (mark, note) = change.tags(&record);
        let _ = store.tag(name, mark, note);
    }
}
