// The refusals that a desk can tell alone.
ghost use Rattle.std.specs.Prelude.{◌≡◌, ◌+◌, ◌<◌, ◌≤◌, [], ◌∷◌, length, IfOk, OnOk};
ghost use Rattle.std.specs.Int.NonZero.{non_zero_u32_get};
ghost use Rattle.model.specs.Numbers.{HasJust};
ghost use Rattle.model.specs.Scheduler.{place_of, free_place};
ghost use Rattle.model.specs.Changes.{falling};
ghost use Rattle.model.specs.Refusals.{ticket_rows, open_rows, finish_rows, withdraw_rows, book_row};
ghost use Rattle.book.specs.Rows.{HasRoom};
ghost use Rattle.desk.specs.States.{OverAnyStore, Judges};

use crate::desk::Desk;
use calls::reason::Reason;
use seats::count::count;
use std::num::NonZeroU32;

impl Desk {
    // The place of an open ticket.
    pub fn place_of(&self, ticket: u32) -> Result<usize, Reason>
        ensures rows { OverAnyStore self.now (λ m. Judges (ticket_rows m ticket) result) }
        ensures place { IfOk result (λ p. OverAnyStore self.now (λ m. p ≡ place_of m ticket) × (p < 32)) }
    {
        if !self.fit {
            return Err(Reason::Unfit);
        }
        if ticket == 0 {
            return Err(Reason::NotOpen);
        }
        self.seats.place_of(ticket).ok_or(Reason::NotOpen)
    }

    // The place that a new ticket would take, and the ticket.
    pub fn place_to_open(&self) -> Result<(usize, NonZeroU32), Reason>
        ensures rows { OverAnyStore self.now (λ m. Judges (open_rows m) result) }
        ensures place { IfOk result (λ v. OverAnyStore self.now (λ m. v.0 ≡ free_place m) × (v.0 < 32)) }
        ensures ticket { IfOk result (λ v. OverAnyStore self.now (λ m. non_zero_u32_get v.1 ≡ m.next)) }
    {
        if !self.fit {
            return Err(Reason::Unfit);
        }
        let place = self.seats.free_place().ok_or(Reason::Crowded)?;
        let ticket = self.next.ok_or(Reason::Spent)?;
        Ok((place, ticket))
    }

    // The place of a ticket that may finish.
    pub fn place_to_finish(&self, ticket: u32) -> Result<usize, Reason>
        ensures rows { OverAnyStore self.now (λ m. Judges (finish_rows m ticket) result) }
        ensures place { IfOk result (λ p. OverAnyStore self.now (λ m. p ≡ place_of m ticket) × (p < 32)) }
    {
        let place = self.place_of(ticket)?;
        if self.arrows.arrow_into(place) {
            return Err(Reason::Later);
        }
        Ok(place)
    }

    // The places that a withdrawal of the ticket takes, where there is room for their tickets.
    pub fn places_to_withdraw(&self, ticket: u32, room: usize) -> Result<u32, Reason>
        ensures rows { OverAnyStore self.now (λ m. Judges (withdraw_rows m room ticket) result) }
        ensures places { IfOk result (λ w. OverAnyStore self.now (λ m. HasJust w (falling m ticket))) }
    {
        let place = self.place_of(ticket)?;
        let places = self.arrows.reach(place);
        if room < count(places) {
            return Err(Reason::Short);
        }
        Ok(places)
    }

    // Whether the lock book has so many free rows.
    pub fn has_rows(&self, count: usize) -> Result<(), Reason>
        ensures rows { OverAnyStore self.now (λ m. Judges (book_row m count ∷ []) result) }
        ensures room { OnOk result (HasRoom self.now.book count) }
    {
        if self.book.has_room(count) {
            Ok(())
        } else {
            Err(Reason::Locks)
        }
    }
}
