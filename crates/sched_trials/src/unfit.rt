// Over a store where a record has a mark or a note a scheduler is unfit: it refuses every call, and leaves the store as it was.
use crate::making::{children, rooted};
use calls::call::{Call, Turn};
use calls::reason::Reason;
use linked::Linked;
use listing::Listing;
use model::kiosk::Kiosk;
use path::query::Query;
use sched::run::{Outcome, run};
use std::alloc::Global;
use std::test::Fail;
use tree::{Made, ROOT, Store};

fn calls(query: Query) -> [Call; 7] {
    [
        Call::Open,
        Call::Ask(1, query),
        Call::Add(1, ROOT, 2),
        Call::Remove(1, ROOT),
        Call::Finish(1),
        Call::Withdraw(1),
        Call::Order,
    ]
}

// Whether all seven calls are refused with 1 where the root has the mark and the note.
fn refuses<S: Made + Drop>(heap: Global, mark: u32, note: u32) -> Result<bool, Fail> {
    let mut store = rooted::<S>(heap, 4)?;
    store.tag(ROOT, mark, note).ok().ok_or(0)?;
    let turns = calls(children(2).ok_or(0)?).map(|call| Turn {
        kiosk: Kiosk::One,
        call,
    });
    let played = run(heap, store, 1, &turns, 4, 4)?;
    let record = played.scheduler.store().look(ROOT);
    let refused = Outcome::Refused(Reason::Unfit);
    Ok(
        played.outcomes.len() == 7
            && played.outcomes.iter().all(|outcome| *outcome == refused)
            && record.map(|record| (record.mark, record.note)) == Some((mark, note)),
    )
}

#[test]
fn at_both_kinds_of_store(rt: HostRuntime) -> Result<(), Fail> {
    for (mark, note) in [(1, 0), (0, 1)] {
        assert!(rt; refuses::<Linked>(rt.alloc(), mark, note)?);
        assert!(rt; refuses::<Listing>(rt.alloc(), mark, note)?);
    }
    Ok(())
}
