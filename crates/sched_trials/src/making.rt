// How the trials make a scheduler, what they ask for, and how they read a refusal.
use calls::reason::Reason;
use path::coded::CodedPath;
use path::query::Query;
use path::step::Test;
use sched::scheduler::Scheduler;
use std::alloc::Global;
use std::test::Fail;
use tree::{Made, ROOT, Store};

// A store for so many records that holds the root.
pub fn rooted<S: Made + Drop>(heap: Global, rows: usize) -> Result<S, Fail> {
    let mut store = S::new(heap, rows)?;
    store.place(ROOT, ROOT, 1).ok().ok_or(0)?;
    Ok(store)
}

// A scheduler over such a store.
pub fn over_root<S: Made + Drop>(
    heap: Global,
    rows: usize,
    first: u32,
) -> Result<Scheduler<S>, Fail> {
    Ok(Scheduler::new(heap, rooted(heap, rows)?, first)?)
}

// The children of the root with the label; none for the label 0.
pub fn children(label: u16) -> Option<Query> {
    let path = CodedPath::one(Test::Name(label))?;
    Some(Query { top: ROOT, path })
}

// The number of the refusal, or none.
pub fn refusal<T: Drop>(answer: Result<T, Reason>) -> Option<u8> {
    answer.err().map(u8::from)
}
