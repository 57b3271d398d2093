// Arrows between places.
#![tactic(auto)]

pub mod arrows;
