// A scheduler is made and opens, adds, removes and finishes; some calls are refused.
use crate::making::refusal;
use linked::Linked;
use listing::Listing;
use sched::scheduler::Scheduler;
use std::test::Fail;
use tree::{Made, ROOT, Store};

// The first node that ticket 1 makes.
const FIRST: u64 = 65_537;

// Whether a scheduler over a store with a root answers the calls of ticket 1 as it must.
fn answers<S: Store>(scheduler: &mut Scheduler<S>) -> bool {
    scheduler.open().ok() == Some(1)
        && scheduler.add(1, ROOT, 2).ok() == Some(FIRST)
        && refusal(scheduler.remove(1, ROOT)) == Some(6)
        && scheduler.remove(1, FIRST).is_ok()
        && refusal(scheduler.add(1, FIRST, 2)) == Some(4)
        && scheduler.finish(1).ok() == Some(1)
        && refusal(scheduler.finish(1)) == Some(2)
}

#[test]
fn over_a_linked_store(rt: HostRuntime) -> Result<(), Fail> {
    let mut store = Linked::new(rt.alloc(), 4)?;
    assert!(rt; store.place(ROOT, ROOT, 1).is_ok());
    assert!(rt; answers(&mut Scheduler::new(rt.alloc(), store, 1)?));
    Ok(())
}

#[test]
fn over_a_listing(rt: HostRuntime) -> Result<(), Fail> {
    let mut store = Listing::new(rt.alloc(), 4)?;
    assert!(rt; store.place(ROOT, ROOT, 1).is_ok());
    assert!(rt; answers(&mut Scheduler::new(rt.alloc(), store, 1)?));
    Ok(())
}

#[test]
fn over_a_store_of_a_later_ticket_it_refuses(rt: HostRuntime) -> Result<(), Fail> {
    let mut store = Linked::new(rt.alloc(), 4)?;
    assert!(rt; store.place(ROOT, ROOT, 1).is_ok());
    assert!(rt; store.place(FIRST, ROOT, 2).is_ok());
    let mut scheduler = Scheduler::new(rt.alloc(), store, 1)?;
    assert_eq!(rt; refusal(scheduler.open()), Some(1));
    Ok(())
}
