// Rows that come and go.
ghost use Rattle.std.specs.Prelude.{◌≡◌, ◌+◌, ◌<◌, ◌≤◌, not, ◌&&◌, [], ◌++◌, map, length, if◌then◌else◌, vec_len, vec_capacity, nat_lt};
ghost use Rattle.words.specs.Words.{bit};
ghost use Rattle.tree.specs.Lists.{keep};
ghost use Rattle.book.specs.Rows.{row_of, held_of, has_room, rows_for};

use crate::book::Book;
use crate::lock::{Claim, LockRow};
use words::has;

// A row for each of the locks, at the end.
fn append(rows: &mut Vec<LockRow>, claim: Claim)
    requires { (claim.place < 32) × (vec_len rows.old + length claim.locks.now ≤ vec_capacity rows.old) }
    ensures after { map row_of rows.new.items ≡ map row_of rows.old.items ++ rows_for claim.entry.place claim.entry.locks.now }
    ensures len { vec_len rows.new ≡ vec_len rows.old + length claim.entry.locks.now }
    ensures capacity { vec_capacity rows.new ≡ vec_capacity rows.old }
{
    for lock in claim.locks {
        rows.push_reserved(LockRow {
            holder: claim.place,
            lock: *lock,
        });
    }
}

impl Book {
    // The ticket takes all the locks of its claim; none where its place is 32 or more, or there are fewer free rows.
    pub fn grant(&mut self, claim: Claim)
        ensures { held_of self.new ≡ held_of self.old ++ (if nat_lt claim.entry.place 32 && has_room self.old (length claim.entry.locks.now) then rows_for claim.entry.place claim.entry.locks.now else []) }
    {
        if claim.place < 32 && self.has_room(claim.locks.len()) {
            append(&mut self.rows, claim);
        }
    }

    // Frees the locks that the places hold.
    pub fn free(&mut self, places: u32)
        ensures { held_of self.new ≡ keep (λ h. not (bit places h.holder)) (held_of self.old) }
    {
        self.rows.retain(|row| !has(places, row.holder));
    }
}
