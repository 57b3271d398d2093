// Making nodes live again whose removers are withdrawn.
ghost use Rattle.std.specs.Prelude.{◌≡◌, map, if◌then◌else◌, refl};
ghost use Rattle.tree.specs.Stores.{each_changed};
ghost use Rattle.model.specs.Numbers.{member};
ghost use Rattle.model.specs.Changes.{with_mark};

use crate::doomed::is_among;
use crate::retag::retag_all;
use tree::{Record, Store};
use walks::change::Change;

// The mark that is left where the tickets are withdrawn.
fn unmarked(mark: u32, tickets: &[u32]) -> u32
    ensures { result ≡ (if member mark tickets.now then 0 else mark) }
{
    if is_among(u64::from(mark), tickets) {
        0
    } else {
        mark
    }
}

// The tickets' marks, taken away.
#[derive(Clone, Copy)]
struct Unmarking<'a> {
    tickets: &'a [u32],
}

impl<'a> Change for Unmarking<'a> {
    ghost changed = { λ c r. with_mark r (if member r.mark c.tickets.now then 0 else r.mark) };

    ghost keeps = { λ c r. refl };

    fn tags(&self, node: &Record) -> (u32, u32) {
        (unmarked(node.mark, self.tickets), node.note)
    }
}

// What the tickets have marked is live again.
pub fn unmark<S: Store>(store: &mut S, tickets: &[u32])
    ensures after { S.Store.meaning store.new ≡ each_changed (λ r. (if member r.mark tickets.now then with_mark r 0 else r)) (S.Store.meaning store.old) }
{
    retag_all(store, &Unmarking { tickets });
}
