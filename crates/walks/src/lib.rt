// What a scheduler asks of a store of any kind, and what it does to it.
#![tactic(auto)]

pub mod change;
pub mod choice;
pub mod climb;
pub mod fill;
pub mod found;
pub mod hits;
pub mod tags;
