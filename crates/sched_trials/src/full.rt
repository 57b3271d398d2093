// A full store takes no further node; a removed one makes room when its ticket finishes, and not before.
use crate::making::{over_root, refusal, rooted};
use linked::Linked;
use listing::Listing;
use sched::scheduler::Scheduler;
use std::alloc::Global;
use std::test::Fail;
use tree::{Made, ROOT, Store, node_name};

// Whether a store of two records with a root takes one node at a time.
fn fills<S: Store>(scheduler: &mut Scheduler<S>) -> bool {
    let made = node_name(1, 1);
    scheduler.open().ok() == Some(1)
        && scheduler.open().ok() == Some(2)
        && scheduler.add(1, ROOT, 2).ok() == Some(made)
        && refusal(scheduler.add(2, ROOT, 2)) == Some(10)
        && scheduler.remove(1, made).is_ok()
        && refusal(scheduler.add(2, ROOT, 2)) == Some(10)
        && scheduler.finish(1).ok() == Some(1)
        && scheduler.add(2, ROOT, 2).ok() == Some(node_name(2, 1))
}

// A store that was made for more records than its kind can hold, loaded up to one less than it can.
fn loaded<S: Made + Drop>(heap: Global) -> Result<S, Fail> {
    let mut store = rooted::<S>(heap, 2_000)?;
    for name in 1..store.limit().saturating_sub(1) {
        store.place(name as u64, ROOT, 2).ok().ok_or(0)?;
    }
    Ok(store)
}

// Whether it takes one node and no more.
fn takes_one<S: Made + Drop>(heap: Global) -> Result<bool, Fail> {
    let mut scheduler = Scheduler::new(heap, loaded::<S>(heap)?, 1)?;
    Ok(
        scheduler.open().ok() == Some(1)
            && scheduler.add(1, ROOT, 2).ok() == Some(node_name(1, 1))
            && refusal(scheduler.add(1, ROOT, 2)) == Some(10)
            && scheduler.store().count() == S::ceiling(),
    )
}

#[test]
fn with_room_for_one_node(rt: HostRuntime) -> Result<(), Fail> {
    assert!(rt; fills(&mut over_root::<Linked>(rt.alloc(), 2, 1)?));
    assert!(rt; fills(&mut over_root::<Listing>(rt.alloc(), 2, 1)?));
    Ok(())
}

#[test]
fn at_the_largest_limit(rt: HostRuntime) -> Result<(), Fail> {
    assert!(rt; takes_one::<Linked>(rt.alloc())?);
    assert!(rt; takes_one::<Listing>(rt.alloc())?);
    Ok(())
}
