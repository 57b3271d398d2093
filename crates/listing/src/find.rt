// What is found in the rows: a name, a row's parent and record, the seat of a new row, a leaf.
ghost use Rattle.std.specs.Prelude.{◌≡◌, ◌-◌, ◌<◌, ◌≤◌, nat_lt, map, filter, min, take, vec_len, slice_index_or};
ghost use Rattle.std.specs.List.{reduce};
ghost use Rattle.tree.specs.declared.record.Record.{Record};
ghost use Rattle.listing.specs.Rows.{path_on, listed, leaf_at, Found, SeatFor};

use crate::listing::Listing;
use crate::row::Seat;
use tree::{ROOT, Record};

impl Listing {
    // Where the row with the name stands.
    pub(crate) fn find(&self, name: u64) -> Option<usize>
        ensures answer { Found self.now.rows.items name result }
    {
        self.rows.iter().position(|row| row.name == name)
    }

    // The least name of a row that is greater than `name`.
    pub(crate) fn least_over(&self, name: u64) -> Option<u64>
        ensures answer { result ≡ reduce min (filter (nat_lt name) (map (λ row. row.name) self.now.rows.items)) }
    {
        self.rows
            .iter()
            .map(|row| row.name)
            .filter(|next| name < *next)
            .min()
    }

    // The parent of a row at this place and depth: the nearest earlier row one level up.
    fn parent_of(&self, index: usize, depth: u16) -> u64
        requires { index ≤ vec_len self.now.rows }
        ensures answer { result ≡ path_on (λ _. 0) (take index self.now.rows.items) (depth - 1) }
    {
        let level = depth.saturating_sub(1);
        self.rows[..index]
            .iter()
            .rev()
            .find(|row| row.depth == level)
            .map_or(ROOT, |row| row.name)
    }

    pub(crate) fn record_at(&self, index: usize) -> Record
        requires { index < vec_len self.now.rows }
        ensures answer { (d : Record) → result ≡ slice_index_or (listed self.now.rows.items) index d }
    {
        let row = self.rows[index];
        let parent = self.parent_of(index, row.depth);
        Record {
            name: row.name,
            parent,
            label: row.label,
            mark: row.mark,
            note: row.note,
        }
    }

    // The seat of a new row: right behind its parent's, one level down. The root's seat is the first, in an empty listing.
    pub(crate) fn seat_for(&self, name: u64, parent: u64) -> Option<Seat>
        ensures answer { SeatFor self.now.rows.items name parent result }
    {
        if let Some(i) = self.find(parent) {
            let depth = self.rows[i].depth + 1;
            return Some(Seat {
                index: i + 1,
                depth,
            });
        }
        if self.rows.is_empty() && name == ROOT && parent == ROOT {
            return Some(Seat { index: 0, depth: 0 });
        }
        None
    }

    // No row has this one as its parent: a first child would be the next row.
    pub(crate) fn is_leaf(&self, index: usize) -> bool
        requires { index < vec_len self.now.rows }
        ensures answer { result ≡ leaf_at self.now.rows.items index }
    {
        index + 1 == self.rows.len() || self.rows[index + 1].depth <= self.rows[index].depth
    }
}
