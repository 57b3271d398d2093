// The calls whose answer is a list of tickets, in a buffer that the caller lends.
ghost use Rattle.std.specs.Prelude.{◌≡◌, length, IfOk};
ghost use Rattle.model.specs.Scheduler.{withdraws, orders, order};
ghost use Rattle.model.specs.Refusals.{order_rows};
ghost use Rattle.model.specs.Calls.{step};
ghost use Rattle.calls.specs.Answers.{Lent, withdraw_answer, order_answer};
ghost use Rattle.seats.specs.Listed.{listed};
ghost use Rattle.desk.specs.States.{Judges};
ghost use Rattle.sched.specs.Whole.{state_of};

use crate::scheduler::Scheduler;
use calls::reason::Reason;
use drops::doomed::drop_made;
use drops::forget::forget;
use drops::unmark::unmark;
use orders::order::order;
use orders::rising::rising;
use seats::tickets::Tickets;
use tree::Store;
use walks::fill::fill;

impl<S: Store> Scheduler<S> {
    // Undoes a transaction with all that arrows lead to from it, writes their tickets, rising, and answers how many they are.
    pub fn withdraw(&mut self, ticket: u32, buffer: &mut [u32]) -> Result<usize, Reason>
        ensures step { step (state_of self.old) (withdraws (length buffer.old) ticket) ≡ (state_of self.new, withdraw_answer result buffer.new) }
        ensures lent { Lent result buffer.old buffer.new }
    {
        let places = self.station.desk.places_to_withdraw(ticket, buffer.len())?;
        let fallen = rising(&self.station.desk.seats, places);
        let tickets = fallen.as_slice();
        drop_made(&mut self.station.store, tickets);
        unmark(&mut self.station.store, tickets);
        forget(&mut self.station.store, places);
        self.station.desk.free(places, 0);
        fill(tickets, buffer);
        Ok(tickets.len())
    }

    // The open tickets in the sequence in which they can finish, where there is room for so many.
    fn in_order(&self, room: usize) -> Result<Tickets, Reason>
        ensures rows { Judges (order_rows (state_of self.now) room) result }
        ensures order { IfOk result (λ t. listed t ≡ order (state_of self.now)) }
    {
        if !self.station.desk.fit {
            return Err(Reason::Unfit);
        }
        let tickets = order(&self.station.desk.seats, &self.station.desk.arrows);
        if room < tickets.len() {
            return Err(Reason::Short);
        }
        Ok(tickets)
    }

    // Writes the open tickets in the sequence in which they can finish, and answers how many they are.
    pub fn order(&self, buffer: &mut [u32]) -> Result<usize, Reason>
        ensures step { step (state_of self.now) (orders (length buffer.old)) ≡ (state_of self.now, order_answer result buffer.new) }
        ensures lent { Lent result buffer.old buffer.new }
    {
        let tickets = self.in_order(buffer.len())?;
        fill(tickets.as_slice(), buffer);
        Ok(tickets.len())
    }
}
