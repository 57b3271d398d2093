// A line as it comes in, byte by byte.
use bounded::Bounded;

pub mod take;

// The first 201 bytes of a line: enough to tell one that is longer than 200, however long it is.
#[derive(Clone, Copy)]
pub struct Line {
    held: Bounded<u8, 201>,
}
