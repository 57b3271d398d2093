// The lock book has 256 rows; those of a ticket that finishes serve again.
use crate::making::{children, over_root, refusal};
use linked::Linked;
use listing::Listing;
use path::query::Query;
use sched::scheduler::Scheduler;
use std::alloc::Global;
use std::test::Fail;
use tree::{Made, ROOT, Store, node_name};

// Whether a remove, which needs two rows, is refused where one is free, and all else where none is. The query finds nothing.
fn fills<S: Store>(scheduler: &mut Scheduler<S>, query: &Query) -> bool {
    scheduler.open().ok() == Some(1)
        && scheduler.add(1, ROOT, 2).is_ok()
        && (0..254).all(|_| scheduler.ask(1, query, &mut []).ok() == Some(0))
        && refusal(scheduler.remove(1, node_name(1, 1))) == Some(9)
        && scheduler.ask(1, query, &mut []).ok() == Some(0)
        && refusal(scheduler.ask(1, query, &mut [])) == Some(9)
        && refusal(scheduler.add(1, ROOT, 2)) == Some(9)
}

// Whether all 256 rows serve the next ticket.
fn serves_again<S: Store>(scheduler: &mut Scheduler<S>, query: &Query) -> bool {
    scheduler.finish(1).ok() == Some(1)
        && scheduler.open().ok() == Some(2)
        && (0..256).all(|_| scheduler.ask(2, query, &mut []).ok() == Some(0))
        && refusal(scheduler.ask(2, query, &mut [])) == Some(9)
}

fn trial<S: Made + Drop>(heap: Global) -> Result<bool, Fail> {
    let query = children(3).ok_or(0)?;
    let mut scheduler = over_root::<S>(heap, 4, 1)?;
    Ok(fills(&mut scheduler, &query) && serves_again(&mut scheduler, &query))
}

#[test]
fn at_both_kinds_of_store(rt: HostRuntime) -> Result<(), Fail> {
    assert!(rt; trial::<Linked>(rt.alloc())?);
    assert!(rt; trial::<Listing>(rt.alloc())?);
    Ok(())
}
