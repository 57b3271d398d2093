// The tickets that a ticket would have to wait for: those that hold a lock in conflict with one that it needs.
#![tactic(auto)]

ghost use Rattle.std.specs.Prelude.{◌≡◌, ℕ, not, ◌&&◌, map, ◌==◌};
ghost use Rattle.words.specs.Words.{bit};
ghost use Rattle.tree.specs.Lists.{some_of};
ghost use Rattle.tree.specs.Trees.{nodes};
ghost use Rattle.model.specs.Locks.{conflict, rival};
ghost use Rattle.book.specs.Rows.{lock_of, held_of};

use book::book::Book;
use book::lock::{Claim, Lock, LockRow};
use tree::Store;
use walks::climb::is_seen;
use words::{has, with};

// Whether two locks are in conflict.
pub fn conflicts<S: Store>(store: &S, held: &Lock, needed: &Lock) -> bool
    ensures { result ≡ conflict (nodes (S.Store.meaning store.now).records) (lock_of held.now) (lock_of needed.now) }
{
    match (held, needed) {
        (Lock::Read(query), Lock::Write(at, last)) | (Lock::Write(at, last), Lock::Read(query)) =>
            is_seen(store, query, *at, *last),
        _ => false,
    }
}

// Whether a lock is in conflict with one of those that are needed.
fn meets<S: Store>(store: &S, held: &Lock, locks: &[Lock]) -> bool
    ensures { result ≡ some_of (conflict (nodes (S.Store.meaning store.now).records) (lock_of held.now)) (map lock_of locks.now) }
{
    locks.iter().any(|needed| conflicts(store, held, needed))
}

// Whether the row's holder is to be put into the word: another ticket, not in it yet, whose lock meets one of the claim.
fn is_new<S: Store>(store: &S, word: u32, row: &LockRow, claim: Claim) -> bool
    ensures { result ≡ (not (row.now.holder == claim.entry.place) && not (bit word row.now.holder) && some_of (conflict (nodes (S.Store.meaning store.now).records) (lock_of row.now.lock)) (map lock_of claim.entry.locks.now)) }
{
    row.holder != claim.place && !has(word, row.holder) && meets(store, &row.lock, claim.locks)
}

// The places, other than the claim's, that hold a lock in conflict with one of those that it needs.
pub fn rivals<S: Store>(store: &S, book: &Book, claim: Claim) -> u32
    ensures { (i : ℕ) → bit result i ≡ rival (nodes (S.Store.meaning store.now).records) (held_of book.now) claim.entry.place (map lock_of claim.entry.locks.now) i }
{
    let mut word = 0;
    for row in book.rows() {
        if is_new(store, word, row, claim) {
            word = with(word, row.holder);
        }
    }
    word
}
