// The places of open tickets, and lists of tickets.
#![tactic(auto)]

pub mod count;
pub mod seats;
pub mod tickets;
