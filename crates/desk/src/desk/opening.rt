// Opening a ticket.
ghost use Rattle.std.specs.Prelude.{◌≡◌, ℕ, List};
ghost use Rattle.tree.specs.declared.record.Record.{Record};
ghost use Rattle.model.specs.Scheduler.{opens};
ghost use Rattle.model.specs.Calls.{step};
ghost use Rattle.calls.specs.Answers.{open_answer};
ghost use Rattle.desk.specs.States.{state};

use crate::desk::Desk;
use calls::reason::Reason;

impl Desk {
    // Gives the next ticket the lowest free place.
    pub fn open(&mut self) -> Result<u32, Reason>
        ensures { (rs : List Record) (limit : ℕ) → step (state rs limit self.old) opens ≡ (state rs limit self.new, open_answer result) }
    {
        let (place, ticket) = self.place_to_open()?;
        self.seats.take(place, ticket.get());
        // After the greatest ticket there is none.
        self.next = ticket.checked_add(1);
        Ok(ticket.get())
    }
}
