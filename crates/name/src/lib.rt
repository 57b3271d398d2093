// Names, and reading one from a text.
#![tactic(auto)]

pub mod fault;
pub mod name;
pub mod told;
