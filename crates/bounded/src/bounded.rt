// A list in an array, and what is answered when there is no room.
ghost use Rattle.std.specs.Prelude.{◌≡◌, ◌≤◌, length};

use std::alloc::AllocError;

pub mod change;
pub mod read;

// At most `N` items: the first `len` of the row. It can be copied, which the kit's `ArrayVec` cannot; `Clone` is written out, since it
// cannot be derived for a generic struct with a ghost field.
pub struct Bounded<T, const N: usize> {
    row: [T; N],
    len: usize,
    ghost full: { length row ≡ N },
    ghost within: { len ≤ N },
}

impl<T: Copy, const N: usize> Copy for Bounded<T, N> {}

impl<T: Copy, const N: usize> Clone for Bounded<T, N> {
    ghost is_clone = { λ x y. y ≡ x };

    ghost is_infallible = { λ _. Unit {0} };

    fn clone(&self) -> Result<Bounded<T, N>, AllocError> {
        Ok(*self)
    }
}

// There are `N` items already.
#[derive(Clone, Copy, PartialEq, Debug)]
pub struct Full;
