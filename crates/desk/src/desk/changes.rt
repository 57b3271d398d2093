// Locks and arrows that are granted and freed.
ghost use Rattle.std.specs.Prelude.{◌≡◌, ℕ, ◌+◌, ◌<◌, ◌≤◌, List, map, length};
ghost use Rattle.words.specs.Words.{bit};
ghost use Rattle.tree.specs.declared.record.Record.{Record};
ghost use Rattle.model.specs.Numbers.{member, HasJust};
ghost use Rattle.model.specs.Changes.{rivals, grant, free};
ghost use Rattle.seats.specs.Places.{added_at};
ghost use Rattle.book.specs.Rows.{lock_of, HasRoom};
ghost use Rattle.desk.specs.States.{state, Rivals, forgotten};

use crate::desk::Desk;
use book::lock::Claim;

// The clauses are over any records before and after: the store changes beside the desk.
impl Desk {
    // The ticket takes the locks of its claim, where there is room for them, with arrows from its rivals.
    pub fn grant(&mut self, claim: Claim, rivals: u32)
        ensures { (rs ss : List Record) (limit : ℕ) → let p = claim.entry.place in let ls = claim.entry.locks.now in p < 32 → HasRoom self.old.book (length ls) → Rivals (state rs limit self.old) p (map lock_of ls) rivals → state ss limit self.new ≡ grant (state rs limit self.old) p (map lock_of ls) ss (added_at self.old.seats) }
    {
        self.book.grant(claim);
        self.arrows.put(claim.place, rivals);
    }

    // Frees the places with their tickets, locks and arrows; so many more tickets are finished.
    pub fn free(&mut self, places: u32, finished: u32)
        ensures { (rs ss : List Record) (limit : ℕ) (ps : List ℕ) → HasJust places ps → self.old.done + finished ≤ 4294967295 → state (forgotten ps ss) limit self.new ≡ free (state rs limit self.old) ps ss finished }
    {
        self.seats.vacate(places);
        self.book.free(places);
        self.arrows.cut(places);
        self.done = self.done.saturating_add(finished);
    }
}
