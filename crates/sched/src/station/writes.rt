// Adding and removing nodes.
ghost use Rattle.std.specs.Prelude.{◌≡◌, ℕ, IfOk, Some};
ghost use Rattle.tree.specs.Records.{look};
ghost use Rattle.model.specs.Rules.{adds, removes};
ghost use Rattle.model.specs.Scheduler.{acts};
ghost use Rattle.model.specs.Refusals.{add_rows, remove_rows};
ghost use Rattle.model.specs.Calls.{step};
ghost use Rattle.calls.specs.Answers.{add_answer, remove_answer};
ghost use Rattle.desk.specs.States.{Judges};
ghost use Rattle.sched.specs.Whole.{whole, Reached};
ghost use Rattle.sched.specs.Judging.{but_last, At};

use crate::judging::{begins, rivals_of};
use crate::station::Station;
use book::lock::{Claim, Lock};
use calls::reason::Reason;
use tree::{ROOT, Record, Store, node_name};
use walks::choice::has_live_child;
use walks::tags::{mark, teach};

// A ticket and a node are what the rules name for an action; a struct would be made only to be taken apart.
impl<S: Store> Station<S> {
    // The place of the ticket, where all but a ring allows the add.
    fn may_add(&self, ticket: u32, node: u64, label: u16) -> Result<usize, Reason>
        ensures rows { Judges (but_last (add_rows (whole S.Store.meaning self.now.store self.now.desk) ticket node label)) result }
        ensures place { IfOk result (At (whole S.Store.meaning self.now.store self.now.desk) ticket) }
    {
        let (place, _) = begins(&self.store, &self.desk, ticket, node)?;
        if label == 0 {
            return Err(Reason::NoLabel);
        }
        self.desk.has_rows(1)?;
        if self.store.limit() <= self.store.count() {
            return Err(Reason::Full);
        }
        Ok(place)
    }

    // Makes a child of the node, and answers its name. That the name is new is known where a history leads to the state.
    pub fn add(&mut self, ticket: u32, node: u64, label: u16) -> Result<u64, Reason>
        ensures { ∥ Reached (whole S.Store.meaning self.old.store self.old.desk) ∥₁ → (room : ℕ) → step (whole S.Store.meaning self.old.store self.old.desk) (acts room (adds ticket node label)) ≡ (whole S.Store.meaning self.new.store self.new.desk, add_answer result) }
    {
        let place = self.may_add(ticket, node, label)?;
        let locks = [Lock::Write(node, Some(label))];
        let claim = Claim {
            place,
            locks: &locks,
        };
        let rivals = rivals_of(&self.store, &self.desk, claim)?;
        // The count fits: a ticket's additions stay in the store while it is open.
        let count = self.desk.seats.added_at(place).saturating_add(1);
        let name = node_name(ticket, count);
        let _ = self.store.place(name, node, label);
        teach(&mut self.store, &[name], place);
        self.desk.grant(claim, rivals);
        self.desk.seats.count_up(place);
        Ok(name)
    }

    // The place of the ticket and the record of the node, where all but a ring allows the remove.
    fn may_remove(&self, ticket: u32, node: u64) -> Result<(usize, Record), Reason>
        ensures rows { Judges (but_last (remove_rows (whole S.Store.meaning self.now.store self.now.desk) ticket node)) result }
        ensures place { IfOk result (λ v. At (whole S.Store.meaning self.now.store self.now.desk) ticket v.0) }
        ensures node { IfOk result (λ v. look node (S.Store.meaning self.now.store).records ≡ Some v.1) }
    {
        let begun = begins(&self.store, &self.desk, ticket, node)?;
        if node == ROOT {
            return Err(Reason::Root);
        }
        if has_live_child(&self.store, node) {
            return Err(Reason::Parent);
        }
        self.desk.has_rows(2)?;
        Ok(begun)
    }

    // Takes the node out of the actual tree: it is marked, and dropped when the ticket finishes.
    pub fn remove(&mut self, ticket: u32, node: u64) -> Result<(), Reason>
        ensures { (room : ℕ) → step (whole S.Store.meaning self.old.store self.old.desk) (acts room (removes ticket node)) ≡ (whole S.Store.meaning self.new.store self.new.desk, remove_answer result) }
    {
        let (place, record) = self.may_remove(ticket, node)?;
        let locks = [
            Lock::Write(node, None),
            Lock::Write(record.parent, Some(record.label)),
        ];
        let claim = Claim {
            place,
            locks: &locks,
        };
        let rivals = rivals_of(&self.store, &self.desk, claim)?;
        mark(&mut self.store, node, ticket);
        self.desk.grant(claim, rivals);
        Ok(())
    }
}
