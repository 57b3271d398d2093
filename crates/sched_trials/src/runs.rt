// A list of turns with each kind of call, made over both kinds of store.
use calls::call::{Call, Turn};
use calls::reason::Reason;
use linked::Linked;
use listing::Listing;
use model::kiosk::Kiosk;
use path::coded::CodedPath;
use path::query::Query;
use path::step::Test;
use sched::run::{Outcome, run};
use std::alloc::{AllocError, Global};
use std::test::Fail;
use tree::{Made, ROOT, Store};

// The first node that ticket 1 makes, with the label 2.
const FIRST: u64 = 65_537;

fn turn(kiosk: Kiosk, call: Call) -> Turn {
    Turn { kiosk, call }
}

// Two tickets, of which the second asks what the first one made: so it cannot finish before it, and falls with it.
fn turns(query: Query) -> [Turn; 10] {
    [
        turn(Kiosk::Zero, Call::Open),
        turn(Kiosk::One, Call::Open),
        turn(Kiosk::Zero, Call::Add(1, ROOT, 2)),
        turn(Kiosk::One, Call::Ask(2, query)),
        turn(Kiosk::Zero, Call::Order),
        turn(Kiosk::One, Call::Finish(2)),
        turn(Kiosk::One, Call::Remove(2, FIRST)),
        turn(Kiosk::Zero, Call::Withdraw(1)),
        turn(Kiosk::Zero, Call::Order),
        turn(Kiosk::One, Call::Finish(2)),
    ]
}

fn outcomes(heap: Global) -> Result<Vec<Outcome>, AllocError> {
    Ok(vec![in heap;
        Outcome::Ticket(1),
        Outcome::Ticket(2),
        Outcome::Made(FIRST),
        Outcome::Found(vec![in heap; FIRST]?),
        Outcome::Ordered(vec![in heap; 1, 2]?),
        Outcome::Refused(Reason::Later),
        Outcome::Removed,
        Outcome::Withdrawn(vec![in heap; 1, 2]?),
        Outcome::Ordered(vec![in heap]?),
        Outcome::Refused(Reason::NotOpen),
    ]?)
}

#[test]
fn over_a_linked_store(rt: HostRuntime) -> Result<(), Fail> {
    let path = CodedPath::one(Test::Name(2)).ok_or(0)?;
    let mut store = Linked::new(rt.alloc(), 4)?;
    assert!(rt; store.place(ROOT, ROOT, 1).is_ok());
    let played = run(
        rt.alloc(),
        store,
        1,
        &turns(Query { top: ROOT, path }),
        4,
        2,
    )?;
    assert_eq!(rt; played.outcomes, outcomes(rt.alloc())?);
    Ok(())
}

#[test]
fn over_a_listing(rt: HostRuntime) -> Result<(), Fail> {
    let path = CodedPath::one(Test::Name(2)).ok_or(0)?;
    let mut store = Listing::new(rt.alloc(), 4)?;
    assert!(rt; store.place(ROOT, ROOT, 1).is_ok());
    let played = run(
        rt.alloc(),
        store,
        1,
        &turns(Query { top: ROOT, path }),
        4,
        2,
    )?;
    assert_eq!(rt; played.outcomes, outcomes(rt.alloc())?);
    Ok(())
}
