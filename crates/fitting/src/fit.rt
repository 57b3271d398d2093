// How a label path ends, and what fitting answers.
ghost use Rattle.std.specs.Prelude.{◌≡◌};
ghost use Rattle.fitting.specs.Fitting.{verdict};

#[derive(Clone, Copy, PartialEq, Debug)]
pub enum Ending {
    // With its last label.
    Closed,
    // Open: with one label more, which may be any.
    Open,
}

// Not a bool, which would be no plainer: an answer has a definition and a text of its own.
#[derive(Clone, Copy, PartialEq, Debug)]
pub enum Fit {
    Yes,
    No,
}

// The answer for a test.
impl From<bool> for Fit {
    ghost from_gives = { λ test fit. fit ≡ verdict test };

    fn from(test: bool) -> Fit {
        if test { Fit::Yes } else { Fit::No }
    }
}
