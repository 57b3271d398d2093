// Refusals of texts: number, place and layer, and how they are printed.
#![tactic(auto)]

pub mod refusal;
pub mod shows;

pub use refusal::{Layer, Refusal};
