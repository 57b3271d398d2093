// A list of tickets.
use bounded::Bounded;

pub mod row;

// At most one ticket for each place.
#[derive(Clone, Copy)]
pub struct Tickets {
    list: Bounded<u32, 32>,
}
