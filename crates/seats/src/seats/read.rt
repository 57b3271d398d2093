// What the places hold, and the places as words.
ghost use Rattle.std.specs.Prelude.{◌≡◌, ℕ, ◌<◌, not, ◌&&◌, ◌==◌, nat_eq, nat_lt, MatchOption};
ghost use Rattle.words.specs.Words.{bit};
ghost use Rattle.model.specs.Numbers.{lowest};
ghost use Rattle.seats.specs.Places.{ticket_at, added_at};

use crate::seats::Seats;
use words::with;

impl Seats {
    // The ticket at the place, 0 where it is free or no place.
    pub fn ticket_at(&self, place: usize) -> u32
        ensures { result ≡ ticket_at self.now place }
    {
        if place < 32 {
            self.places[place].ticket
        } else {
            0
        }
    }

    // How many additions were accepted of the ticket at the place.
    pub fn added_at(&self, place: usize) -> u16
        ensures { result ≡ added_at self.now place }
    {
        if place < 32 {
            self.places[place].added
        } else {
            0
        }
    }

    fn places_with(&self, ticket: u32) -> u32
        ensures { (i : ℕ) → bit result i ≡ (nat_lt i 32 && ticket_at self.now i == ticket) }
    {
        let mut word = 0;
        for (place, seat) in self.places.iter().enumerate() {
            if seat.ticket == ticket {
                word = with(word, place);
            }
        }
        word
    }

    // The lowest place with the ticket, and of ticket 0 the lowest free place.
    pub fn place_of(&self, ticket: u32) -> Option<usize>
        ensures { let place = lowest (λ i. nat_eq (ticket_at self.now i) ticket) in MatchOption result (place ≡ 32) (λ p. (p ≡ place) × (p < 32)) }
    {
        let place = self.places_with(ticket).trailing_zeros() as usize;
        (place < 32).then_some(place)
    }

    // The lowest free place.
    pub fn free_place(&self) -> Option<usize>
        ensures { let place = lowest (λ i. nat_eq (ticket_at self.now i) 0) in MatchOption result (place ≡ 32) (λ p. (p ≡ place) × (p < 32)) }
    {
        self.place_of(0)
    }

    // The places that are not free.
    pub fn taken(&self) -> u32
        ensures { (i : ℕ) → bit result i ≡ not (ticket_at self.now i == 0) }
    {
        !self.places_with(0)
    }
}
