// Opening and finishing tickets.
ghost use Rattle.std.specs.Prelude.{◌≡◌};
ghost use Rattle.model.specs.Scheduler.{opens, finishes};
ghost use Rattle.model.specs.Calls.{step};
ghost use Rattle.calls.specs.Answers.{open_answer, finish_answer};
ghost use Rattle.sched.specs.Whole.{whole, Reached};

use crate::station::Station;
use calls::reason::Reason;
use drops::doomed::drop_marked;
use drops::forget::forget;
use tree::Store;
use words::with;

impl<S: Store> Station<S> {
    // Opens a transaction, and answers its ticket.
    pub fn open(&mut self) -> Result<u32, Reason>
        ensures { step (whole S.Store.meaning self.old.store self.old.desk) opens ≡ (whole S.Store.meaning self.new.store self.new.desk, open_answer result) }
    {
        self.desk.open()
    }

    // Ends a transaction for good, and answers its place among the finished ones. That what it removed can be dropped is known where
    // a history leads to the state.
    pub fn finish(&mut self, ticket: u32) -> Result<u32, Reason>
        ensures { ∥ Reached (whole S.Store.meaning self.old.store self.old.desk) ∥₁ → step (whole S.Store.meaning self.old.store self.old.desk) (finishes ticket) ≡ (whole S.Store.meaning self.new.store self.new.desk, finish_answer result) }
    {
        let place = self.desk.place_to_finish(ticket)?;
        let places = with(0, place);
        drop_marked(&mut self.store, ticket);
        forget(&mut self.store, places);
        self.desk.free(places, 1);
        Ok(self.desk.done)
    }
}
