// A buffer that is too short by one stays as it was, and nothing changes; of a longer one only the start is written.
use crate::making::{children, over_root, refusal};
use linked::Linked;
use listing::Listing;
use path::query::Query;
use sched::scheduler::Scheduler;
use std::alloc::Global;
use std::test::Fail;
use tree::{Made, ROOT, Store, node_name};

// Whether ticket 1 is answered its two nodes, which the query finds.
fn asks<S: Store>(scheduler: &mut Scheduler<S>, query: &Query) -> bool {
    let mut short = [7];
    let mut long = [7, 7, 7];
    scheduler.add(1, ROOT, 2).is_ok()
        && scheduler.add(1, ROOT, 2).is_ok()
        && refusal(scheduler.ask(1, query, &mut short)) == Some(8)
        && short == [7]
        && scheduler.ask(1, query, &mut long).ok() == Some(2)
        && long == [node_name(1, 1), node_name(1, 2), 7]
}

// Whether tickets 1 and 2 stand in this sequence, as no arrow leads between them.
fn orders<S: Store>(scheduler: &Scheduler<S>) -> bool {
    let mut short = [9];
    let mut long = [9, 9, 9];
    refusal(scheduler.order(&mut short)) == Some(8)
        && short == [9]
        && scheduler.order(&mut long).ok() == Some(2)
        && long == [1, 2, 9]
}

// Whether ticket 2 falls with ticket 1, whose nodes it asks for.
fn withdraws<S: Store>(scheduler: &mut Scheduler<S>, query: &Query) -> bool {
    let mut short = [9];
    let mut long = [9, 9, 9];
    scheduler.ask(2, query, &mut [0, 0]).ok() == Some(2)
        && refusal(scheduler.withdraw(1, &mut short)) == Some(8)
        && short == [9]
        && scheduler.store().count() == 3
        && scheduler.withdraw(1, &mut long).ok() == Some(2)
        && long == [1, 2, 9]
        && scheduler.store().count() == 1
}

fn trial<S: Made + Drop>(heap: Global) -> Result<bool, Fail> {
    let query = children(2).ok_or(0)?;
    let mut scheduler = over_root::<S>(heap, 4, 1)?;
    Ok(
        scheduler.open().is_ok()
            && scheduler.open().is_ok()
            && asks(&mut scheduler, &query)
            && orders(&scheduler)
            && withdraws(&mut scheduler, &query),
    )
}

#[test]
fn at_both_kinds_of_store(rt: HostRuntime) -> Result<(), Fail> {
    assert!(rt; trial::<Linked>(rt.alloc())?);
    assert!(rt; trial::<Listing>(rt.alloc())?);
    Ok(())
}
