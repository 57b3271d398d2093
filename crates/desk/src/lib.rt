// What a scheduler keeps beside its store.
#![tactic(auto)]

pub mod desk;
