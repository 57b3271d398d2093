// Places that are taken and vacated.
ghost use Rattle.std.specs.Prelude.{◌≡◌, ℕ, ◌&&◌, if◌then◌else◌, ◌==◌, nat_lt};
ghost use Rattle.words.specs.Words.{bit};
ghost use Rattle.seats.specs.Places.{free_seat, seat_at, counted_up};

use crate::seats::{Seat, Seats};
use words::has;

const FREE: Seat = Seat {
    ticket: 0,
    added: 0,
};

impl Seats {
    // Every place is free.
    pub fn new() -> Seats
        ensures { (i : ℕ) → seat_at result i ≡ free_seat }
    {
        Seats { places: [FREE; 32] }
    }

    // The place gets the ticket, of which nothing was added yet; there is no place from 32 on.
    pub fn take(&mut self, place: usize, ticket: u32)
        ensures { (i : ℕ) → seat_at self.new i ≡ (if nat_lt place 32 && i == place then record { ticket = ticket; added = 0 } else seat_at self.old i) }
    {
        if place < 32 {
            self.places[place] = Seat { ticket, added: 0 };
        }
    }

    // One accepted addition more of the ticket at the place, up to 65535.
    pub fn count_up(&mut self, place: usize)
        ensures { (i : ℕ) → seat_at self.new i ≡ (if nat_lt place 32 && i == place then counted_up (seat_at self.old i) else seat_at self.old i) }
    {
        if place < 32 {
            let seat = &mut self.places[place];
            seat.added = seat.added.saturating_add(1);
        }
    }

    // The places are free again.
    pub fn vacate(&mut self, places: u32)
        ensures { (i : ℕ) → seat_at self.new i ≡ (if bit places i then free_seat else seat_at self.old i) }
    {
        for (place, seat) in self.places.iter_mut().enumerate() {
            if has(places, place) {
                *seat = FREE;
            }
        }
    }
}
