// The scheduler of a station, over a store of any kind.
#![tactic(auto)]

pub mod judging;
pub mod run;
pub mod scheduler;
pub mod station;
