// Locks, and the rows of the book that hold them.
ghost use Rattle.std.specs.Prelude.{◌<◌};

use path::query::Query;

#[derive(Clone, Copy)]
pub enum Lock {
    // From the query's node along its path.
    Read(Query),
    // Under the node: a child with the label, or with any.
    Write(u64, Option<u16>),
}

// The locks that the ticket at a place needs.
#[derive(Clone, Copy)]
pub struct Claim<'a> {
    pub place: usize,
    pub locks: &'a [Lock],
}

// A lock, and the place of the ticket that holds it.
#[derive(Clone, Copy)]
pub struct LockRow {
    pub holder: usize,
    pub lock: Lock,
    ghost low: { holder < 32 },
}
