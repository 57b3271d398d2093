// Over an empty store a scheduler is fit: tickets come and go, and no node is there to act on, the root neither.
use crate::making::{children, refusal};
use linked::Linked;
use listing::Listing;
use sched::scheduler::Scheduler;
use std::alloc::Global;
use std::test::Fail;
use tree::{Made, ROOT};

fn trial<S: Made + Drop>(heap: Global) -> Result<bool, Fail> {
    let query = children(2).ok_or(0)?;
    let mut scheduler = Scheduler::new(heap, S::new(heap, 4)?, 1)?;
    Ok(
        scheduler.order(&mut []).ok() == Some(0)
            && scheduler.open().ok() == Some(1)
            && refusal(scheduler.ask(1, &query, &mut [])) == Some(3)
            && refusal(scheduler.add(1, ROOT, 2)) == Some(3)
            && refusal(scheduler.remove(1, ROOT)) == Some(3)
            && scheduler.withdraw(1, &mut [0]).ok() == Some(1)
            && scheduler.open().ok() == Some(2)
            && scheduler.finish(2).ok() == Some(1),
    )
}

#[test]
fn at_both_kinds_of_store(rt: HostRuntime) -> Result<(), Fail> {
    assert!(rt; trial::<Linked>(rt.alloc())?);
    assert!(rt; trial::<Listing>(rt.alloc())?);
    Ok(())
}
