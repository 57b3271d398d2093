// Asking for nodes.
ghost use Rattle.std.specs.Prelude.{◌≡◌, length};
ghost use Rattle.model.specs.Rules.{asks};
ghost use Rattle.model.specs.Scheduler.{acts};
ghost use Rattle.model.specs.Calls.{step};
ghost use Rattle.calls.specs.Answers.{ask_answer, Lent};
ghost use Rattle.sched.specs.Whole.{state_of};

use crate::scheduler::Scheduler;
use book::lock::{Claim, Lock};
use calls::reason::Reason;
use path::query::Query;
use tree::Store;
use walks::tags::teach;

impl<S: Store> Scheduler<S> {
    // Writes the names of the nodes that the query finds to the start of the buffer, rising, and answers how many they are.
    pub fn ask(&mut self, ticket: u32, query: &Query, buffer: &mut [u64]) -> Result<usize, Reason>
        ensures step { step (state_of self.old) (acts (length buffer.old) (asks ticket query.now.top query.now.path)) ≡ (state_of self.new, ask_answer result buffer.new) }
        ensures lent { Lent result buffer.old buffer.new }
    {
        let (place, _) = self.begins(ticket, query.top)?;
        self.hits.find(&self.station.store, query);
        let count = self.hits.len();
        if buffer.len() < count {
            return Err(Reason::Short);
        }
        self.station.desk.has_rows(1)?;
        let locks = [Lock::Read(*query)];
        let claim = Claim {
            place,
            locks: &locks,
        };
        let rivals = self.rivals_of(claim)?;
        teach(&mut self.station.store, self.hits.as_slice(), place);
        self.station.desk.grant(claim, rivals);
        self.hits.write(buffer);
        Ok(count)
    }
}
