// One script for every store of limit 8, with all that it is answered. Two lists: the answers of both stores are compared as wholes.
use crate::ops::{Answer, Op, answers};
use linked::Linked;
use listing::Listing;
use std::test::Fail;
use tree::Made;

const SCRIPT: [Op; 34] = [
    // an empty store takes the root alone
    Op::Look(0),
    Op::Next(0),
    Op::Place(1, 0, 5),
    Op::Place(0, 1, 5),
    Op::Place(0, 0, 0),
    Op::Place(0, 0, 9),
    Op::Place(0, 0, 9),
    // a tree of four, with a child whose name is less than its parent's
    Op::Place(3, 0, 2),
    Op::Place(1, 3, 2),
    Op::Place(9, 4, 2),
    Op::Place(65_536, 1, 7),
    Op::Next(0),
    Op::Next(1),
    Op::Next(2),
    Op::Next(65_536),
    Op::Next(u64::MAX),
    // marks and notes
    Op::Tag(1, 6, 5),
    Op::Look(1),
    Op::Tag(2, 6, 5),
    Op::Look(2),
    Op::Look(65_536),
    // leaves go before their parents
    Op::Discard(3),
    Op::Discard(65_536),
    Op::Discard(1),
    Op::Discard(3),
    Op::Discard(3),
    // up to the limit
    Op::Place(8, 0, 1),
    Op::Place(2, 8, 1),
    Op::Place(7, 8, 1),
    Op::Place(4, 7, 1),
    Op::Place(6, 7, 1),
    Op::Place(5, 7, 1),
    Op::Place(3, 5, 1),
    Op::Place(1, 5, 1),
];

const ANSWERS: [Answer; 34] = [
    // an empty store takes the root alone
    Answer::Nothing,
    Answer::Nothing,
    Answer::Refused,
    Answer::Refused,
    Answer::Refused,
    Answer::Done,
    Answer::Refused,
    // a tree of four, with a child whose name is less than its parent's
    Answer::Done,
    Answer::Done,
    Answer::Refused,
    Answer::Done,
    Answer::Name(1),
    Answer::Name(3),
    Answer::Name(3),
    Answer::Nothing,
    Answer::Nothing,
    // marks and notes
    Answer::Done,
    Answer::Found(1, 3, 2, 6, 5),
    Answer::Refused,
    Answer::Nothing,
    Answer::Found(65_536, 1, 7, 0, 0),
    // leaves go before their parents
    Answer::Refused,
    Answer::Done,
    Answer::Done,
    Answer::Done,
    Answer::Refused,
    // up to the limit
    Answer::Done,
    Answer::Done,
    Answer::Done,
    Answer::Done,
    Answer::Done,
    Answer::Done,
    Answer::Done,
    Answer::Refused,
];

#[test]
fn both_answer_the_script(rt: HostRuntime) -> Result<(), Fail> {
    let mut linked = Linked::new(rt.alloc(), 8)?;
    let mut listing = Listing::new(rt.alloc(), 8)?;
    let told = answers(rt.alloc(), &mut linked, &SCRIPT)?;
    assert_eq!(rt; answers(rt.alloc(), &mut listing, &SCRIPT)?, told.clone()?);
    assert_eq!(rt; told.as_slice(), ANSWERS.as_slice());
    Ok(())
}
