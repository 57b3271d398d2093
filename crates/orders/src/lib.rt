// Tickets in order.
#![tactic(auto)]

mod drawn;
mod foremost;
pub mod order;
pub mod rising;
