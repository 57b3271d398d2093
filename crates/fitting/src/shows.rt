// How an answer is printed.
ghost use Rattle.std.specs.Prelude.{Some};
ghost use Rattle.fitting.specs.Fitting.{fit_text};

use crate::fit::Fit;
use std::fmt;

impl fmt::Display for Fit {
    ghost output = { λ x. Some (fit_text x) };

    fn fmt<W: fmt::Write>(&self, f: &mut fmt::Formatter<W>) -> fmt::Result {
        match self {
            Fit::Yes => write!(f, "yes"),
            Fit::No => write!(f, "no"),
        }
    }
}
