// Dropping records from a store of any kind, and clearing their tags.
#![tactic(auto)]

pub mod doomed;
pub mod forget;
pub mod passes;
pub mod retag;
pub mod unmark;
