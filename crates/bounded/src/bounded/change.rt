// Making a list, and items that come and go.
ghost use Rattle.std.specs.Prelude.{◌≡◌, [], ◌∷◌, ◌++◌, length, take, if◌then◌else◌, Ok, Err, nat_lt};
ghost use Rattle.bounded.specs.Items.{items_of};

use crate::bounded::{Bounded, Full};

impl<T: Copy, const N: usize> Bounded<T, N> {
    // No item. What `filler` is doesn't matter: it stands where items may come.
    pub fn new(filler: T) -> Bounded<T, N>
        ensures { items_of result ≡ [] }
    {
        Bounded {
            row: [filler; N],
            len: 0,
        }
    }

    // The items that are given, as far as there is room.
    pub fn copied(filler: T, items: &[T]) -> Bounded<T, N>
        ensures { items_of result ≡ take N items.now }
    {
        let mut row = [filler; N];
        let len = items.len().min(N);
        let front = &mut row[..];
        front[0..len].copy_from_slice(&items[0..len]);
        Bounded { row, len }
    }

    // One item more at the end, where there is room.
    pub fn push(&mut self, item: T) -> Result<(), Full>
        ensures answer { result ≡ (if nat_lt (length (items_of self.old)) N then Ok tt else Err (record {})) }
        ensures after { items_of self.new ≡ (if nat_lt (length (items_of self.old)) N then items_of self.old ++ item ∷ [] else items_of self.old) }
    {
        if self.len >= N {
            return Err(Full);
        }
        self.row[self.len] = item;
        self.len += 1;
        Ok(())
    }

    pub fn clear(&mut self)
        ensures { items_of self.new ≡ [] }
    {
        self.len = 0;
    }
}
