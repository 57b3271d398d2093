// What the rows are asked before anything is changed.
ghost use Rattle.std.specs.Prelude.{◌≡◌, ◌+◌, ◌||◌};
ghost use Rattle.tree.specs.Records.{seat, has, is_parent};
ghost use Rattle.tree.specs.Calls.{first_root};
ghost use Rattle.linked.specs.Seats.{found};

use crate::Linked;
use tree::ROOT;

impl Linked {
    // `Ok`: the seat of the row with this name. `Err`: the seat that such a row would take.
    pub(crate) fn find(&self, name: u64) -> Result<usize, usize>
        ensures answer { result ≡ found name self.now.rows.items }
    {
        self.rows.binary_search_by_key(&name, |row| row.name)
    }

    // How many rows have this name or a lesser one.
    pub(crate) fn past(&self, name: u64) -> usize
        ensures answer { result ≡ seat (name + 1) self.now.rows.items }
    {
        self.rows.partition_point(|row| row.name <= name)
    }

    // Whether a new row hangs in the tree: its parent is there, or it is the first row of all, the root.
    pub(crate) fn hangs(&self, name: u64, parent: u64) -> bool
        ensures answer { result ≡ (has parent self.now.rows.items || first_root name parent self.now.rows.items) }
    {
        if self.rows.is_empty() {
            name == ROOT && parent == ROOT
        } else {
            self.find(parent).is_ok()
        }
    }

    // Whether another row has this name as its parent.
    pub(crate) fn is_parent(&self, name: u64) -> bool
        ensures answer { result ≡ is_parent name self.now.rows.items }
    {
        self.rows
            .iter()
            .any(|row| row.name != name && row.parent == name)
    }
}
