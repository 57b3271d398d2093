// The calls of a scheduler, and what it answers.
#![tactic(auto)]

pub mod answer;
pub mod call;
pub mod reason;
