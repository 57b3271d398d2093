// Who sits where.
ghost use Rattle.std.specs.Prelude.{◌≡◌, length};

pub mod change;
pub mod read;

// What stands at a place: its ticket, 0 where the place is free, and how many additions were accepted of that ticket.
// Not an `Option` of a seat: `count_up` promises to count at a free place too, and the rules say 0 for no ticket.
#[derive(Clone, Copy)]
pub struct Seat {
    pub ticket: u32,
    pub added: u16,
}

// 32 places.
#[derive(Clone, Copy)]
pub struct Seats {
    places: [Seat; 32],
    ghost full: { length places ≡ 32 },
}
