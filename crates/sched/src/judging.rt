// The refusals of an action that need the store, over any store and desk.
ghost use Rattle.std.specs.Prelude.{◌≡◌, ◌<◌, [], ◌∷◌, map, IfOk, Some};
ghost use Rattle.tree.specs.Records.{look};
ghost use Rattle.model.specs.Arrows.{ring};
ghost use Rattle.model.specs.Refusals.{node_rows};
ghost use Rattle.model.specs.Changes.{rivals};
ghost use Rattle.arrows.specs.Between.{between};
ghost use Rattle.book.specs.Rows.{lock_of};
ghost use Rattle.desk.specs.States.{Judges, Rivals};
ghost use Rattle.sched.specs.Whole.{whole};
ghost use Rattle.sched.specs.Judging.{head_rows, At};

use book::lock::Claim;
use calls::reason::Reason;
use desk::desk::Desk;
use rivals::rivals;
use tree::{ROOT, Record, Store};
use words::has;

// The record of a live node that the ticket at the place knows.
fn known_node<S: Store>(store: &S, desk: &Desk, place: usize, node: u64) -> Result<Record, Reason>
    ensures rows { Judges (node_rows (whole S.Store.meaning store.now desk.now) place node) result }
    ensures node { IfOk result (λ x. look node (S.Store.meaning store.now).records ≡ Some x) }
{
    let Some(record) = store.look(node) else {
        return Err(Reason::Unknown);
    };
    if node != ROOT && !has(record.note, place) {
        return Err(Reason::Unknown);
    }
    if record.mark != 0 {
        return Err(Reason::Marked);
    }
    Ok(record)
}

// The place of an open ticket, and the record of a live node that it knows.
pub fn begins<S: Store>(
    store: &S,
    desk: &Desk,
    ticket: u32,
    node: u64,
) -> Result<(usize, Record), Reason>
    ensures rows { Judges (head_rows (whole S.Store.meaning store.now desk.now) ticket node) result }
    ensures place { IfOk result (λ v. At (whole S.Store.meaning store.now desk.now) ticket v.0) }
    ensures node { IfOk result (λ v. look node (S.Store.meaning store.now).records ≡ Some v.1) }
{
    let place = desk.place_of(ticket)?;
    let record = known_node(store, desk, place, node)?;
    Ok((place, record))
}

// The places from which the action's arrows come, where they close no ring.
pub fn rivals_of<S: Store>(store: &S, desk: &Desk, claim: Claim) -> Result<u32, Reason>
    ensures rows { claim.entry.place < 32 → Judges ((ring (between desk.now.arrows) claim.entry.place (rivals (whole S.Store.meaning store.now desk.now) claim.entry.place (map lock_of claim.entry.locks.now)), 11) ∷ []) result }
    ensures rivals { IfOk result (λ w. Rivals (whole S.Store.meaning store.now desk.now) claim.entry.place (map lock_of claim.entry.locks.now) w) }
{
    let from = rivals(store, &desk.book, claim);
    if desk.arrows.would_ring(claim.place, from) {
        return Err(Reason::Ring);
    }
    Ok(from)
}
