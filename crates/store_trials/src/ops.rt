// Operations on a store and their answers as values, so that one list runs on any store.
use std::alloc::{AllocError, Global};
use tree::{Record, Refused, Store};

#[derive(Clone, Copy)]
pub enum Op {
    // name, parent, label
    Place(u64, u64, u16),
    // name, mark, note
    Tag(u64, u32, u32),
    Discard(u64),
    Look(u64),
    Next(u64),
}

#[derive(Clone, Copy, PartialEq, Debug)]
pub enum Answer {
    Done,
    Refused,
    // name, parent, label, mark, note
    Found(u64, u64, u16, u32, u32),
    Name(u64),
    Nothing,
}

// What each kind of call gives back, as an answer.
impl From<Result<(), Refused>> for Answer {
    fn from(done: Result<(), Refused>) -> Answer {
        done.map_or(Answer::Refused, |()| Answer::Done)
    }
}

impl From<Option<Record>> for Answer {
    fn from(found: Option<Record>) -> Answer {
        found.map_or(Answer::Nothing, |r| {
            Answer::Found(r.name, r.parent, r.label, r.mark, r.note)
        })
    }
}

impl From<Option<u64>> for Answer {
    fn from(name: Option<u64>) -> Answer {
        name.map_or(Answer::Nothing, Answer::Name)
    }
}

pub fn ask<S: Store>(store: &mut S, op: Op) -> Answer {
    match op {
        Op::Place(name, parent, label) => store.place(name, parent, label).into(),
        Op::Tag(name, mark, note) => store.tag(name, mark, note).into(),
        Op::Discard(name) => store.discard(name).into(),
        Op::Look(name) => store.look(name).into(),
        Op::Next(name) => store.next_above(name).into(),
    }
}

// Every answer, in the order of the operations.
pub fn answers<S: Store>(
    heap: Global,
    store: &mut S,
    ops: &[Op],
) -> Result<Vec<Answer>, AllocError> {
    let mut all = Vec::new(heap);
    for op in ops {
        all.push(ask(store, *op))?;
    }
    Ok(all)
}

// Whether each operation gets the answer beside it.
pub fn expect<S: Store>(store: &mut S, steps: &[(Op, Answer)]) -> bool {
    steps.iter().all(|(op, answer)| ask(store, *op) == *answer)
}
