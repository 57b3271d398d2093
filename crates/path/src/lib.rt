// Path expressions: their steps, and reading them from a text.
#![tactic(auto)]

pub mod coded;
pub mod fault;
pub mod path;
pub mod query;
pub mod read;
pub mod step;
pub mod token;
pub mod told;
