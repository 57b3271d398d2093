// Asks: what is written, what a ticket then knows, and an arrow from a ticket whose lock an ask meets.
use crate::making::children;
use calls::reason::Reason;
use linked::Linked;
use listing::Listing;
use path::query::Query;
use sched::scheduler::Scheduler;
use std::test::Fail;
use tree::{Made, ROOT, Store};

// The first node that ticket 1 makes, with the label 2.
const FIRST: u64 = 65_537;

// Whether a scheduler over a store with a root answers as it must, where two tickets ask for its children with the label 2.
fn answers<S: Store>(scheduler: &mut Scheduler<S>, query: &Query) -> bool {
    let mut buffer = [7, 7];
    let mut short = [];
    scheduler.open().ok() == Some(1)
        && scheduler.open().ok() == Some(2)
        && scheduler.add(1, ROOT, 2).ok() == Some(FIRST)
        && scheduler.remove(2, FIRST).err() == Some(Reason::Unknown)
        && scheduler.ask(2, query, &mut short).err() == Some(Reason::Short)
        && scheduler.ask(2, query, &mut buffer).ok() == Some(1)
        && buffer == [FIRST, 7]
        && scheduler.finish(2).err() == Some(Reason::Later)
        && scheduler.remove(2, FIRST).is_ok()
        && scheduler.ask(1, query, &mut buffer).err() == Some(Reason::Ring)
        && buffer == [FIRST, 7]
}

#[test]
fn over_a_linked_store(rt: HostRuntime) -> Result<(), Fail> {
    let query = children(2).ok_or(0)?;
    let mut store = Linked::new(rt.alloc(), 4)?;
    assert!(rt; store.place(ROOT, ROOT, 1).is_ok());
    assert!(rt; answers(&mut Scheduler::new(rt.alloc(), store, 1)?, &query));
    Ok(())
}

#[test]
fn over_a_listing(rt: HostRuntime) -> Result<(), Fail> {
    let query = children(2).ok_or(0)?;
    let mut store = Listing::new(rt.alloc(), 4)?;
    assert!(rt; store.place(ROOT, ROOT, 1).is_ok());
    assert!(rt; answers(&mut Scheduler::new(rt.alloc(), store, 1)?, &query));
    Ok(())
}
