// Tickets rise by one from the first one, up to the last that there is; from 0 none is given.
use crate::making::{over_root, refusal};
use linked::Linked;
use listing::Listing;
use std::alloc::Global;
use std::test::Fail;
use tree::{Made, ROOT};

// Whether a scheduler with the first ticket 0 is fit, and still gives none.
fn gives_none<S: Made + Drop>(heap: Global) -> Result<bool, Fail> {
    let mut scheduler = over_root::<S>(heap, 4, 0)?;
    Ok(
        refusal(scheduler.open()) == Some(14)
            && scheduler.order(&mut []).ok() == Some(0)
            && refusal(scheduler.finish(0)) == Some(2),
    )
}

// Whether tickets 1 and 2 are given, the second also where the first has finished.
fn gives_from_1<S: Made + Drop>(heap: Global) -> Result<bool, Fail> {
    let mut scheduler = over_root::<S>(heap, 4, 1)?;
    Ok(
        scheduler.open().ok() == Some(1)
            && scheduler.finish(1).ok() == Some(1)
            && scheduler.open().ok() == Some(2),
    )
}

// Whether the last ticket is given, makes a node, and is the last one also when it has finished.
fn gives_the_last<S: Made + Drop>(heap: Global) -> Result<bool, Fail> {
    let mut scheduler = over_root::<S>(heap, 4, u32::MAX)?;
    Ok(
        scheduler.open().ok() == Some(4_294_967_295)
            && refusal(scheduler.open()) == Some(14)
            && scheduler.add(u32::MAX, ROOT, 2).ok() == Some(281_474_976_645_121)
            && scheduler.finish(u32::MAX).ok() == Some(1)
            && refusal(scheduler.open()) == Some(14),
    )
}

fn trial<S: Made + Drop>(heap: Global) -> Result<bool, Fail> {
    Ok(gives_none::<S>(heap)? && gives_from_1::<S>(heap)? && gives_the_last::<S>(heap)?)
}

#[test]
fn at_both_kinds_of_store(rt: HostRuntime) -> Result<(), Fail> {
    assert!(rt; trial::<Linked>(rt.alloc())?);
    assert!(rt; trial::<Listing>(rt.alloc())?);
    Ok(())
}
