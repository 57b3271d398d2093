// Choices of records, and whether a store has a record that is chosen.
ghost use Rattle.std.specs.Prelude.{◌≡◌, Bool, not, ◌&&◌};
ghost use Rattle.tree.specs.declared.record.Record.{Record};
ghost use Rattle.tree.specs.Lists.{some_of, all_of};
ghost use Rattle.tree.specs.Records.{look};
ghost use Rattle.tree.specs.Trees.{actual, bare, live};
ghost use Rattle.model.specs.Ways.{child_of};
ghost use Rattle.model.specs.Scheduler.{untouched};
ghost use Rattle.walks.specs.Choices.{chosen_at};

use tree::{ROOT, Record, Store, following};

// A trait and no closure: each contract would need a premise that ties the closure's calls to a test on records.
pub trait Choice {
    // Whether the record is chosen.
    ghost chosen: { Self → Record → Bool };

    fn is_chosen(&self, node: &Record) -> bool
        ensures { result ≡ chosen self.now node.now };
}

// Whether the store has a record of this name, and it is chosen.
pub fn chosen_at<S: Store, C: Choice>(store: &S, choice: &C, name: u64) -> bool
    ensures { result ≡ chosen_at (C.Choice.chosen choice.now) (look name (S.Store.meaning store.now).records) }
{
    store.look(name).is_some_and(|node| choice.is_chosen(&node))
}

// Whether the store has a record that is chosen.
fn has_chosen<S: Store, C: Choice>(store: &S, choice: &C) -> bool
    ensures { result ≡ some_of (C.Choice.chosen choice.now) (S.Store.meaning store.now).records }
{
    let mut last = None;
    while let Some(name) = following(store, last) {
        if chosen_at(store, choice, name) {
            return true;
        }
        last = Some(name);
    }
    false
}

// The live children of a node.
#[derive(Clone, Copy)]
struct LiveChild {
    parent: u64,
}

impl Choice for LiveChild {
    ghost chosen = { λ c r. live r && child_of c.parent (bare r) };

    fn is_chosen(&self, node: &Record) -> bool {
        node.mark == 0 && node.name != ROOT && node.parent == self.parent
    }
}

pub fn has_live_child<S: Store>(store: &S, name: u64) -> bool
    ensures answer { result ≡ some_of (child_of name) (actual (S.Store.meaning store.now).records) }
{
    has_chosen(store, &LiveChild { parent: name })
}

// The records that a scheduler whose first ticket is `first` cannot begin with.
#[derive(Clone, Copy)]
struct Touched {
    first: u32,
}

impl Choice for Touched {
    ghost chosen = { λ c r. not (untouched c.first r) };

    fn is_chosen(&self, node: &Record) -> bool {
        let old = node.name < 65_536 || node.name < u64::from(self.first) * 65_536;
        !(node.mark == 0 && node.note == 0 && old)
    }
}

// Whether a scheduler whose first ticket is `first` can begin with the store.
pub fn fit_for<S: Store>(store: &S, first: u32) -> bool
    ensures answer { result ≡ all_of (untouched first) (S.Store.meaning store.now).records }
{
    !has_chosen(store, &Touched { first })
}
