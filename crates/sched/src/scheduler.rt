// A station in a state that some history reaches, and memory for its asks.
use crate::station::Station;
use std::marker::Model;
use tree::Store;
use walks::hits::Hits;

pub mod asks;
pub mod lists;
pub mod make;
pub mod parts;
pub mod steps;
pub mod turn;

#[derive(Drop)]
pub struct Scheduler<S: Store> {
    station: Station<S>,
    // Memory for what an ask finds; what it holds between two calls has no meaning.
    hits: Hits,
}

// The view is the parts and not the model's state, which holds functions: their equality cannot be decided.
impl<S: Store> Model for Scheduler<S> {
    ghost use Rattle.sched.specs.Whole.{Parts, state_of, Reached};

    ghost Value = { Parts };

    ghost view = { λ s. record { store = S.Store.meaning s.station.store; desk = s.station.desk } };

    ghost invariant = { λ s. ∥ Reached (state_of (record { store = S.Store.meaning s.station.store; desk = s.station.desk })) ∥₁ };
}
