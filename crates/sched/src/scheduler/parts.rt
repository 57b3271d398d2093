// The parts of a scheduler, to be read or taken back, and what its type keeps of them.
ghost use Rattle.std.specs.Prelude.{◌≡◌};
ghost use Rattle.sched.specs.Whole.{state_of, Reached};

use crate::scheduler::Scheduler;
use crate::station::Station;
use desk::desk::Desk;
use tree::Store;

impl<S: Store> Scheduler<S> {
    pub fn store(&self) -> &S
        ensures { S.Store.meaning result.now ≡ self.now.store }
    {
        &self.station.store
    }

    pub fn desk(&self) -> &Desk
        ensures { result.now ≡ self.now.desk }
    {
        &self.station.desk
    }

    // The store and the desk, given back.
    pub fn into_station(self) -> Station<S>
        ensures store { S.Store.meaning result.store ≡ self.store }
        ensures desk { result.desk ≡ self.desk }
    {
        self.station
    }

    // Some history of calls led to this state: so what `turn` promises of every such history is promised of one at least.
    pub fn has_history(&self)
        ensures { ∥ Reached (state_of self.now) ∥₁ }
    {
        // The use of a field lets the proof see what the type keeps.
        let _ = &self.station;
    }
}
