// Lines of any length in a fixed amount of memory.
#![tactic(auto)]

pub mod line;
