// Paths over label codes: a is 1, b is 2, c is 3.
use fitting::codes::fits_codes;
use fitting::fit::{Ending, Fit};
use path::coded::CodedPath;
use path::coded::fault::StepFault;
use path::step::{Step, Test};
use std::test::Fail;

const A: Test<u16> = Test::Name(1);

fn step(deep: bool, code: u16) -> Step<u16> {
    Step {
        deep,
        test: Test::Name(code),
    }
}

// The path `a/b`, or `a//b`.
fn two(deep: bool) -> Option<CodedPath> {
    let mut path = CodedPath::one(A)?;
    path.push(step(deep, 2)).ok()?;
    Some(path)
}

#[test]
fn closed_endings(rt: HostRuntime) -> Result<(), Fail> {
    let child = two(false).ok_or(0)?;
    let deep = two(true).ok_or(0)?;
    assert_eq!(rt; fits_codes(&[1, 2], Ending::Closed, &child), Fit::Yes);
    assert_eq!(rt; fits_codes(&[1, 3, 2], Ending::Closed, &child), Fit::No);
    assert_eq!(rt; fits_codes(&[1, 3, 2], Ending::Closed, &deep), Fit::Yes);
    assert_eq!(rt; fits_codes(&[1, 2, 2], Ending::Closed, &deep), Fit::Yes);
    assert_eq!(rt; fits_codes(&[2, 1], Ending::Closed, &deep), Fit::No);
    assert_eq!(rt; fits_codes(&[], Ending::Closed, &deep), Fit::No);
    Ok(())
}

#[test]
fn open_endings(rt: HostRuntime) -> Result<(), Fail> {
    let child = two(false).ok_or(0)?;
    let deep = two(true).ok_or(0)?;
    assert_eq!(rt; fits_codes(&[1], Ending::Open, &child), Fit::Yes);
    assert_eq!(rt; fits_codes(&[], Ending::Open, &child), Fit::No);
    assert_eq!(rt; fits_codes(&[1], Ending::Open, &deep), Fit::Yes);
    assert_eq!(rt; fits_codes(&[2], Ending::Open, &deep), Fit::No);
    assert_eq!(rt; fits_codes(&[1, 2, 3], Ending::Open, &deep), Fit::Yes);
    assert_eq!(rt; fits_codes(&[1, 2], Ending::Open, &child), Fit::No);
    Ok(())
}

#[test]
fn code_0_is_no_label(rt: HostRuntime) -> Result<(), Fail> {
    assert!(rt; CodedPath::one(Test::Name(0)).is_none());
    let mut path = CodedPath::one(Test::Name(65_535)).ok_or(0)?;
    assert_eq!(rt; path.push(step(true, 0)), Err(StepFault::Code));
    assert_eq!(rt; path.push(step(true, 65_535)), Ok(()));
    Ok(())
}

#[test]
fn eight_steps_and_no_ninth(rt: HostRuntime) -> Result<(), Fail> {
    let mut path = CodedPath::one(Test::Star).ok_or(0)?;
    let star = Step {
        deep: true,
        test: Test::Star,
    };
    // No index: seven steps more.
    for _ in 1..8u8 {
        assert_eq!(rt; path.push(star), Ok(()));
    }
    assert_eq!(rt; path.push(star), Err(StepFault::Many));
    assert_eq!(rt;
        fits_codes(&[1, 2, 3, 4, 5, 6, 7, 8], Ending::Closed, &path),
        Fit::Yes
    );
    assert_eq!(rt;
        fits_codes(&[1, 2, 3, 4, 5, 6, 7], Ending::Closed, &path),
        Fit::No
    );
    assert_eq!(rt;
        fits_codes(&[1, 2, 3, 4, 5, 6, 7], Ending::Open, &path),
        Fit::Yes
    );
    Ok(())
}
