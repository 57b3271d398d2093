// Trying a written label path against an expression, without a tree.
#![tactic(auto)]

pub mod examples;
pub mod fault;
pub mod labels;
pub mod line;
pub mod reply;
pub mod told;
pub mod tries;
