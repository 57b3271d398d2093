// The listing: rows in preorder, whose room is reserved when it is made.
ghost use Rattle.std.specs.Prelude.{◌≡◌, ◌≤◌, true, vec_len, vec_capacity};
ghost use Rattle.tree.specs.Records.{distinct, labelled};
ghost use Rattle.tree.specs.Trees.{nodes, IsTree};
ghost use Rattle.listing.specs.Rows.{nested, rooted, listed, records_of};

use crate::row::Row;

// The rows stand in preorder below one root, with distinct names, and there is room for as many as the limit.
#[derive(Drop)]
pub struct Listing {
    pub(crate) rows: Vec<Row>,
    pub(crate) limit: usize,
    ghost nests: { nested 0 0 rows.items ≡ true },
    ghost roots: { rooted rows.items ≡ true },
    ghost apart: { distinct (listed rows.items) ≡ true },
    ghost tree: { ∥ IsTree (nodes (records_of rows.items)) ∥₁ },
    ghost labels: { labelled (records_of rows.items) ≡ true },
    ghost within: { vec_len rows ≤ limit },
    ghost room: { limit ≤ vec_capacity rows },
    ghost small: { limit ≤ 512 },
}
