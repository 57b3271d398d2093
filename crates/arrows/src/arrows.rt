// The arrows between 32 places.
ghost use Rattle.std.specs.Prelude.{◌≡◌, length};

pub mod change;
pub mod clear;
pub mod reach;

// For each place the set of the places from which an arrow comes to it.
#[derive(Clone, Copy)]
pub struct Arrows {
    into: [u32; 32],
    ghost full: { length into ≡ 32 },
}
