// The lock book.
#![tactic(auto)]

pub mod book;
pub mod lock;
