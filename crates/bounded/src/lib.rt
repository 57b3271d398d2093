// Lists of at most a fixed number of items, in memory of a fixed size.
#![tactic(auto)]

pub mod bounded;

pub use bounded::{Bounded, Full};
