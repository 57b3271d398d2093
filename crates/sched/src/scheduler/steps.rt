// The calls that need no memory of the scheduler's own: each is the station's, in a state that a history leads to.
ghost use Rattle.std.specs.Prelude.{◌≡◌, ℕ, ◌<◌, [], ◌∷◌, map, IfOk, Some};
ghost use Rattle.tree.specs.Records.{look};
ghost use Rattle.model.specs.Arrows.{ring};
ghost use Rattle.model.specs.Rules.{adds, removes};
ghost use Rattle.model.specs.Scheduler.{opens, finishes, acts};
ghost use Rattle.model.specs.Changes.{rivals};
ghost use Rattle.model.specs.Calls.{step};
ghost use Rattle.calls.specs.Answers.{open_answer, finish_answer, add_answer, remove_answer};
ghost use Rattle.book.specs.Rows.{lock_of};
ghost use Rattle.desk.specs.States.{Judges, Rivals};
ghost use Rattle.sched.specs.Whole.{state_of};
ghost use Rattle.sched.specs.Judging.{head_rows, At};

use crate::judging::{begins, rivals_of};
use crate::scheduler::Scheduler;
use book::lock::Claim;
use calls::reason::Reason;
use tree::{Record, Store};

impl<S: Store> Scheduler<S> {
    // The place of an open ticket, and the record of a live node that it knows.
    pub fn begins(&self, ticket: u32, node: u64) -> Result<(usize, Record), Reason>
        ensures rows { Judges (head_rows (state_of self.now) ticket node) result }
        ensures place { IfOk result (λ v. At (state_of self.now) ticket v.0) }
        ensures node { IfOk result (λ v. look node self.now.store.records ≡ Some v.1) }
    {
        begins(&self.station.store, &self.station.desk, ticket, node)
    }

    // The places from which the action's arrows come, where they close no ring.
    pub fn rivals_of(&self, claim: Claim) -> Result<u32, Reason>
        ensures rows { claim.entry.place < 32 → Judges ((ring (state_of self.now).arrows claim.entry.place (rivals (state_of self.now) claim.entry.place (map lock_of claim.entry.locks.now)), 11) ∷ []) result }
        ensures rivals { IfOk result (λ w. Rivals (state_of self.now) claim.entry.place (map lock_of claim.entry.locks.now) w) }
    {
        rivals_of(&self.station.store, &self.station.desk, claim)
    }

    // Opens a transaction, and answers its ticket.
    pub fn open(&mut self) -> Result<u32, Reason>
        ensures { step (state_of self.old) opens ≡ (state_of self.new, open_answer result) }
    {
        self.station.open()
    }

    // Makes a child of the node, and answers its name.
    pub fn add(&mut self, ticket: u32, node: u64, label: u16) -> Result<u64, Reason>
        ensures { (room : ℕ) → step (state_of self.old) (acts room (adds ticket node label)) ≡ (state_of self.new, add_answer result) }
    {
        self.station.add(ticket, node, label)
    }

    // Takes the node out of the actual tree: it is marked, and dropped when the ticket finishes.
    pub fn remove(&mut self, ticket: u32, node: u64) -> Result<(), Reason>
        ensures { (room : ℕ) → step (state_of self.old) (acts room (removes ticket node)) ≡ (state_of self.new, remove_answer result) }
    {
        self.station.remove(ticket, node)
    }

    // Ends a transaction for good, and answers its place among the finished ones.
    pub fn finish(&mut self, ticket: u32) -> Result<u32, Reason>
        ensures { step (state_of self.old) (finishes ticket) ≡ (state_of self.new, finish_answer result) }
    {
        self.station.finish(ticket)
    }
}
