// 32 tickets can be open; a place that is free again serves the next ticket.
use crate::making::{over_root, refusal};
use linked::Linked;
use listing::Listing;
use sched::scheduler::Scheduler;
use std::alloc::Global;
use std::test::Fail;
use tree::{Made, ROOT, Store, node_name};

// Whether 32 tickets open and no more.
fn fills<S: Store>(scheduler: &mut Scheduler<S>) -> bool {
    (1..33).all(|ticket| scheduler.open().ok() == Some(ticket))
        && refusal(scheduler.open()) == Some(13)
}

// Whether the place of ticket 5, the fifth of the note's bits, serves ticket 33 and no more.
fn serves_again<S: Store>(scheduler: &mut Scheduler<S>) -> bool {
    let made = node_name(33, 1);
    scheduler.finish(5).ok() == Some(1)
        && scheduler.open().ok() == Some(33)
        && refusal(scheduler.open()) == Some(13)
        && scheduler.add(33, ROOT, 2).ok() == Some(made)
        && scheduler.store().look(made).map(|record| record.note) == Some(16)
}

fn trial<S: Made + Drop>(heap: Global) -> Result<bool, Fail> {
    let mut scheduler = over_root::<S>(heap, 4, 1)?;
    Ok(fills(&mut scheduler) && serves_again(&mut scheduler))
}

#[test]
fn at_both_kinds_of_store(rt: HostRuntime) -> Result<(), Fail> {
    assert!(rt; trial::<Linked>(rt.alloc())?);
    assert!(rt; trial::<Listing>(rt.alloc())?);
    Ok(())
}
