// Single rules of the tree, each on an empty store of either kind.
use crate::ops::{Answer, Op, expect};
use linked::Linked;
use listing::Listing;
use std::alloc::Global;
use std::test::Fail;
use tree::Made;

const PLACE_ROOT: Op = Op::Place(0, 0, 1);

// Whether a store of this kind gives these answers.
fn one<S: Made + Drop>(heap: Global, steps: &[(Op, Answer)]) -> Result<bool, Fail> {
    Ok(expect(&mut S::new(heap, 8)?, steps))
}

// Whether both kinds of store give these answers.
fn both(heap: Global, steps: &[(Op, Answer)]) -> Result<bool, Fail> {
    Ok(one::<Linked>(heap, steps)? && one::<Listing>(heap, steps)?)
}

#[test]
fn lone_root_goes(rt: HostRuntime) -> Result<(), Fail> {
    let steps = [
        (PLACE_ROOT, Answer::Done),
        (Op::Discard(0), Answer::Done),
        (Op::Look(0), Answer::Nothing),
        (PLACE_ROOT, Answer::Done),
    ];
    assert!(rt; both(rt.alloc(), &steps)?);
    Ok(())
}

#[test]
fn root_comes_once(rt: HostRuntime) -> Result<(), Fail> {
    let steps = [
        (PLACE_ROOT, Answer::Done),
        (PLACE_ROOT, Answer::Refused),
        (Op::Next(0), Answer::Nothing),
    ];
    assert!(rt; both(rt.alloc(), &steps)?);
    Ok(())
}

#[test]
fn child_below_its_parent(rt: HostRuntime) -> Result<(), Fail> {
    let steps = [
        (PLACE_ROOT, Answer::Done),
        (Op::Place(65_536, 0, 2), Answer::Done),
        (Op::Place(7, 65_536, 3), Answer::Done),
        (Op::Next(0), Answer::Name(7)),
        (Op::Next(7), Answer::Name(65_536)),
        (Op::Look(7), Answer::Found(7, 65_536, 3, 0, 0)),
        (Op::Discard(65_536), Answer::Refused),
        (Op::Discard(7), Answer::Done),
        (Op::Discard(65_536), Answer::Done),
    ];
    assert!(rt; both(rt.alloc(), &steps)?);
    Ok(())
}

#[test]
fn label_0_is_refused(rt: HostRuntime) -> Result<(), Fail> {
    let steps = [
        (Op::Place(0, 0, 0), Answer::Refused),
        (PLACE_ROOT, Answer::Done),
        (Op::Place(1, 0, 0), Answer::Refused),
        (Op::Look(1), Answer::Nothing),
    ];
    assert!(rt; both(rt.alloc(), &steps)?);
    Ok(())
}

#[test]
fn missing_parent_is_refused(rt: HostRuntime) -> Result<(), Fail> {
    let steps = [
        (PLACE_ROOT, Answer::Done),
        (Op::Place(1, 2, 1), Answer::Refused),
        (Op::Place(1, 1, 1), Answer::Refused),
        (Op::Look(1), Answer::Nothing),
    ];
    assert!(rt; both(rt.alloc(), &steps)?);
    Ok(())
}

#[test]
fn node_with_a_child_stays(rt: HostRuntime) -> Result<(), Fail> {
    let steps = [
        (PLACE_ROOT, Answer::Done),
        (Op::Place(1, 0, 4), Answer::Done),
        (Op::Discard(0), Answer::Refused),
        (Op::Look(0), Answer::Found(0, 0, 1, 0, 0)),
        (Op::Discard(1), Answer::Done),
        (Op::Discard(0), Answer::Done),
    ];
    assert!(rt; both(rt.alloc(), &steps)?);
    Ok(())
}

#[test]
fn absent_name_takes_no_tag(rt: HostRuntime) -> Result<(), Fail> {
    let steps = [
        (Op::Tag(0, 1, 1), Answer::Refused),
        (PLACE_ROOT, Answer::Done),
        (Op::Tag(1, 1, 1), Answer::Refused),
        (Op::Tag(0, 3, 2), Answer::Done),
        (Op::Look(0), Answer::Found(0, 0, 1, 3, 2)),
    ];
    assert!(rt; both(rt.alloc(), &steps)?);
    Ok(())
}
