// Removing a node, and learning of nodes: changes of marks and notes.
ghost use Rattle.std.specs.Prelude.{◌≡◌, map, if◌then◌else◌, nat_eq, refl};
ghost use Rattle.tree.specs.Stores.{each_changed};
ghost use Rattle.model.specs.Numbers.{member};
ghost use Rattle.model.specs.Changes.{with_mark};
ghost use Rattle.walks.specs.Changes.{learns_at};

use crate::change::{Change, retag};
use tree::{Record, Store};
use words::with;

// The mark of a ticket.
#[derive(Clone, Copy)]
struct Marking {
    ticket: u32,
}

impl Change for Marking {
    ghost changed = { λ c r. with_mark r c.ticket };

    ghost keeps = { λ c r. refl };

    fn tags(&self, node: &Record) -> (u32, u32) {
        (self.ticket, node.note)
    }
}

// The ticket `ticket` removes the node.
pub fn mark<S: Store>(store: &mut S, name: u64, ticket: u32)
    ensures after { S.Store.meaning store.new ≡ each_changed (λ r. (if nat_eq r.name name then with_mark r ticket else r)) (S.Store.meaning store.old) }
{
    retag(store, &Marking { ticket }, name);
}

// The place of a ticket, put into the note.
#[derive(Clone, Copy)]
struct Learning {
    place: usize,
}

impl Change for Learning {
    ghost changed = { λ c r. learns_at c.place r };

    ghost keeps = { λ c r. refl };

    fn tags(&self, node: &Record) -> (u32, u32) {
        (node.mark, with(node.note, self.place))
    }
}

// The ticket at the place learns of the nodes; there is no place from 32 on.
pub fn teach<S: Store>(store: &mut S, names: &[u64], place: usize)
    ensures after { S.Store.meaning store.new ≡ each_changed (λ r. (if member r.name names.now then learns_at place r else r)) (S.Store.meaning store.old) }
{
    for name in names {
        retag(store, &Learning { place }, *name);
    }
}
