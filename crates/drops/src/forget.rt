// Taking places out of the notes, when their tickets are gone.
ghost use Rattle.std.specs.Prelude.{◌≡◌, ℕ, List, map, refl};
ghost use Rattle.words.specs.Words.{bit};
ghost use Rattle.tree.specs.Stores.{each_changed};
ghost use Rattle.model.specs.Numbers.{member, HasJust};
ghost use Rattle.model.specs.Changes.{forgets};
ghost use Rattle.drops.specs.Forgetting.{forgets_word};

use crate::retag::retag_all;
use tree::{Record, Store};
use walks::change::Change;
use words::minus;

// The places, taken out of the note.
#[derive(Clone, Copy)]
struct Forgetting {
    places: u32,
}

impl Change for Forgetting {
    ghost changed = { λ c r. forgets_word c.places r };

    ghost keeps = { λ c r. refl };

    fn tags(&self, node: &Record) -> (u32, u32) {
        (node.mark, minus(node.note, self.places))
    }
}

// The tickets at the places know no node any more.
pub fn forget<S: Store>(store: &mut S, places: u32)
    ensures after { S.Store.meaning store.new ≡ each_changed (forgets_word places) (S.Store.meaning store.old) }
    ensures listed { (ps : List ℕ) → HasJust places ps → S.Store.meaning store.new ≡ each_changed (forgets ps) (S.Store.meaning store.old) }
{
    retag_all(store, &Forgetting { places });
}
