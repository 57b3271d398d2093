// A name as it was written, and the part of a text that it is read from.
ghost use Rattle.std.specs.Prelude.{◌≤◌, length};
ghost use Rattle.bounded.specs.Items.{items_of};

use bounded::Bounded;

pub mod compare;
pub mod cut;
pub mod read;

// The bytes of a text from `at` to its end. The classes of bytes are no part of it: they are a value that each reading is given
// (docs/rules.md), and two parts are read by the same.
#[derive(Clone, Copy)]
pub struct Part<'a> {
    pub text: &'a [u8],
    pub at: usize,
}

// One to sixteen bytes, and the offset in the text where they began.
#[derive(Clone, Copy)]
pub struct Name {
    bytes: Bounded<u8, 16>,
    at: usize,
    ghost some: { 1 ≤ length (items_of bytes) },
}
