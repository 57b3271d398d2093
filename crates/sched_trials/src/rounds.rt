// Some hundred turns of both kiosks: one round of them is made six times, each time by the next three tickets.
use crate::making::{children, rooted};
use calls::call::{Call, Turn};
use calls::reason::Reason;
use linked::Linked;
use listing::Listing;
use model::kiosk::Kiosk;
use path::coded::CodedPath;
use path::query::Query;
use path::step::{Step, Test};
use sched::run::{Outcome, Played, run};
use std::alloc::{AllocError, Global};
use std::test::Fail;
use tree::{Made, ROOT, Store, node_name};

// The last ticket before each round. The first node that it made is the only child of the root with the label 2.
const BEFORE: [u8; 6] = [0, 3, 6, 9, 12, 15];

fn zero(call: Call) -> Turn {
    Turn {
        kiosk: Kiosk::Zero,
        call,
    }
}

fn one(call: Call) -> Turn {
    Turn {
        kiosk: Kiosk::One,
        call,
    }
}

// The nodes with the label 2 that are at least two levels below the root.
fn deep() -> Option<Query> {
    let mut path = CodedPath::one(Test::Star)?;
    let step = Step {
        deep: true,
        test: Test::Name(2),
    };
    path.push(step).ok()?;
    Some(Query { top: ROOT, path })
}

// The second ticket asks what the first one made, so the first cannot ask where the second removed; they are withdrawn together.
fn two_fall(before: u8, near: Query, deep: Query) -> [Turn; 17] {
    let (a, b) = (u32::from(before) + 1, u32::from(before) + 2);
    let (kept, made) = (node_name(u32::from(before), 1), node_name(a, 1));
    [
        zero(Call::Open),
        one(Call::Open),
        zero(Call::Add(a, ROOT, 2)),
        zero(Call::Add(a, made, 2)),
        zero(Call::Ask(a, Query { top: made, ..near })),
        one(Call::Add(b, ROOT, 0)),
        one(Call::Remove(b, kept)),
        one(Call::Ask(b, near)),
        zero(Call::Remove(a, made)),
        zero(Call::Remove(a, ROOT)),
        one(Call::Remove(b, kept)),
        one(Call::Add(b, kept, 3)),
        zero(Call::Ask(a, deep)),
        one(Call::Order),
        one(Call::Finish(b)),
        zero(Call::Withdraw(a)),
        one(Call::Withdraw(b)),
    ]
}

fn as_two_fall(heap: Global, before: u8) -> Result<Vec<Outcome>, AllocError> {
    let (a, b) = (u32::from(before) + 1, u32::from(before) + 2);
    let (kept, made) = (node_name(u32::from(before), 1), node_name(a, 1));
    Ok(vec![in heap;
        Outcome::Ticket(a),
        Outcome::Ticket(b),
        Outcome::Made(made),
        Outcome::Made(node_name(a, 2)),
        Outcome::Found(vec![in heap; node_name(a, 2)]?),
        Outcome::Refused(Reason::NoLabel),
        Outcome::Refused(Reason::Unknown),
        Outcome::Found(vec![in heap; kept, made]?),
        Outcome::Refused(Reason::Parent),
        Outcome::Refused(Reason::Root),
        Outcome::Removed,
        Outcome::Refused(Reason::Marked),
        Outcome::Refused(Reason::Ring),
        Outcome::Ordered(vec![in heap; a, b]?),
        Outcome::Refused(Reason::Later),
        Outcome::Withdrawn(vec![in heap; a, b]?),
        Outcome::Refused(Reason::NotOpen),
    ]?)
}

// The third ticket takes a place of theirs, replaces the node that was kept, and leaves one more node.
fn third_lasts(before: u8, near: Query) -> [Turn; 8] {
    let c = u32::from(before) + 3;
    [
        one(Call::Open),
        zero(Call::Order),
        one(Call::Ask(c, near)),
        one(Call::Remove(c, node_name(u32::from(before), 1))),
        one(Call::Add(c, ROOT, 2)),
        zero(Call::Add(c, ROOT, 4)),
        zero(Call::Finish(c)),
        zero(Call::Order),
    ]
}

fn as_third_lasts(heap: Global, before: u8) -> Result<Vec<Outcome>, AllocError> {
    let c = u32::from(before) + 3;
    Ok(vec![in heap;
        Outcome::Ticket(c),
        Outcome::Ordered(vec![in heap; c]?),
        Outcome::Found(vec![in heap; node_name(u32::from(before), 1)]?),
        Outcome::Removed,
        Outcome::Made(node_name(c, 1)),
        Outcome::Made(node_name(c, 2)),
        Outcome::Finished(c / 3),
        Outcome::Ordered(vec![in heap]?),
    ]?)
}

// At the end a ticket asks for the node that each round has left.
fn turns(heap: Global) -> Result<Vec<Turn>, Fail> {
    let near = children(2).ok_or(0)?;
    let deep = deep().ok_or(0)?;
    let mut turns = Vec::new(heap);
    for before in BEFORE {
        turns.extend_from_slice(&two_fall(before, near, deep))?;
        turns.extend_from_slice(&third_lasts(before, near))?;
    }
    let left = children(4).ok_or(0)?;
    let last = [
        zero(Call::Open),
        one(Call::Ask(19, left)),
        zero(Call::Finish(19)),
    ];
    turns.extend_from_slice(&last)?;
    Ok(turns)
}

fn outcomes(heap: Global) -> Result<Vec<Outcome>, AllocError> {
    let mut outcomes = Vec::new(heap);
    for before in BEFORE {
        outcomes.extend(as_two_fall(heap, before)?)?;
        outcomes.extend(as_third_lasts(heap, before)?)?;
    }
    let left = vec![in heap; 196_610, 393_218, 589_826, 786_434, 983_042, 1_179_650]?;
    outcomes.extend(vec![in heap;
        Outcome::Ticket(19),
        Outcome::Found(left),
        Outcome::Finished(7),
    ]?)?;
    Ok(outcomes)
}

// The turns made over a store whose root has one loaded child, with the label 2.
fn played<S: Made + Drop>(heap: Global) -> Result<Played<S>, Fail> {
    let mut store = rooted::<S>(heap, 512)?;
    store.place(1, ROOT, 2).ok().ok_or(0)?;
    Ok(run(heap, store, 1, &turns(heap)?, 6, 2)?)
}

#[test]
fn over_both_kinds_of_store(rt: HostRuntime) -> Result<(), Fail> {
    let linked = played::<Linked>(rt.alloc())?;
    let listing = played::<Listing>(rt.alloc())?;
    assert_eq!(rt; linked.outcomes.len(), 153);
    assert_eq!(rt; linked.outcomes, outcomes(rt.alloc())?);
    assert_eq!(rt; linked.outcomes, listing.outcomes);
    assert_eq!(rt; linked.scheduler.store().count(), 8);
    assert_eq!(rt; listing.scheduler.store().count(), 8);
    Ok(())
}
