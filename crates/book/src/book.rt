// The book of the locks that are held.
ghost use Rattle.std.specs.Prelude.{◌≤◌, vec_len, vec_capacity};

use crate::lock::LockRow;

pub mod change;
pub mod read;

// At most 256 rows, in the sequence the locks were taken. Memory for all of them is there from the making. The `Vec`
// stands bare: a type around it would only repeat its methods.
#[derive(Drop)]
pub struct Book {
    rows: Vec<LockRow>,
    ghost few: { vec_len rows ≤ 256 },
    ghost room: { 256 ≤ vec_capacity rows },
}
