// The linked store: one row for each record, which names its parent. The rows rise by name, so a name is found by halving,
// and their memory is reserved when the store is made.
#![tactic(auto)]

ghost use Rattle.std.specs.Prelude.{◌≡◌, ◌≤◌, true, vec_len, vec_capacity};
ghost use Rattle.tree.specs.Records.{rises, labelled};
ghost use Rattle.tree.specs.Trees.{nodes, IsTree};

mod find;
mod make;
pub mod store;

use tree::Record;

// The `Vec` stands bare, and `count`, `limit`, `tag` and `discard` read as in the other store, over rows of another type: what both
// could share would only repeat the `Vec`'s methods.
#[derive(Drop)]
pub struct Linked {
    rows: Vec<Record>,
    limit: usize,
    ghost rising: { rises rows.items ≡ true },
    ghost tree: { ∥ IsTree (nodes rows.items) ∥₁ },
    ghost labels: { labelled rows.items ≡ true },
    ghost within: { vec_len rows ≤ limit },
    ghost room: { limit ≤ vec_capacity rows },
    ghost small: { limit ≤ 1024 },
}
