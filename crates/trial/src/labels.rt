// A label path as it was written.
ghost use Rattle.std.specs.Prelude.{◌≤◌, length};
ghost use Rattle.bounded.specs.Items.{items_of};

use bounded::Bounded;
use name::name::Name;

pub mod names;
pub mod read;

// One to sixteen names.
#[derive(Clone, Copy)]
pub struct Labels {
    names: Bounded<Name, 16>,
    ghost some: { 1 ≤ length (items_of names) },
}
