// A path expression.
ghost use Rattle.std.specs.Prelude.{◌≡◌, ◌≤◌, true, length};
ghost use Rattle.bounded.specs.Items.{items_of};
ghost use Rattle.path.specs.Steps.{begins_plain};

use crate::step::Step;
use bounded::Bounded;
use std::alloc::AllocError;

pub mod steps;

// One to eight steps; no slash stands before the first. (`Clone` cannot be derived for a generic struct with a ghost field.)
pub struct Path<L> {
    steps: Bounded<Step<L>, 8>,
    ghost some: { 1 ≤ length (items_of steps) },
    ghost plain: { begins_plain (items_of steps) ≡ true },
}

impl<L: Copy> Copy for Path<L> {}

impl<L: Copy> Clone for Path<L> {
    ghost is_clone = { λ x y. y ≡ x };

    ghost is_infallible = { λ _. Unit {0} };

    fn clone(&self) -> Result<Path<L>, AllocError> {
        Ok(*self)
    }
}
