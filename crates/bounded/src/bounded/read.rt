// What the items are.
ghost use Rattle.std.specs.Prelude.{◌≡◌, ◌≤◌, length, ◌==◌};
ghost use Rattle.bounded.specs.Items.{items_of};

use crate::bounded::Bounded;

impl<T, const N: usize> Bounded<T, N> {
    pub fn len(&self) -> usize
        ensures value { result ≡ length (items_of self.now) }
        ensures bound { result ≤ N }
    {
        self.as_slice().len()
    }

    pub fn is_empty(&self) -> bool
        ensures { result ≡ (length (items_of self.now) == 0) }
    {
        self.len == 0
    }

    pub fn as_slice(&self) -> &[T]
        ensures { result.now ≡ items_of self.now }
    {
        let row = &self.row[..];
        &row[0..self.len]
    }
}
