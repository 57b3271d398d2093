// The open tickets with their locks and arrows, and what the next calls go on with.
use arrows::arrows::Arrows;
use book::book::Book;
use seats::seats::Seats;
use std::num::NonZeroU32;

pub mod changes;
pub mod judging;
pub mod make;
pub mod opening;

#[derive(Drop)]
pub struct Desk {
    pub seats: Seats,
    pub book: Book,
    pub arrows: Arrows,
    // The ticket that the next open gives, None where none is left.
    pub next: Option<NonZeroU32>,
    // How many tickets are finished.
    pub done: u32,
    // Whether the scheduler was made over a store that it can begin with.
    pub fit: bool,
}
