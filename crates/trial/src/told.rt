// What is told of a line's fault.
ghost use Rattle.std.specs.Prelude.{◌≡◌};
ghost use Rattle.trial.specs.Refusals.{line_refusal};

use crate::fault::LineFault;
use refusal::{Layer, Refusal};

impl From<LineFault> for Refusal {
    ghost from_gives = { λ x y. y ≡ line_refusal x };

    fn from(fault: LineFault) -> Refusal {
        match fault {
            LineFault::Path(fault) => Refusal::from(fault),
            LineFault::Field(place) => Refusal {
                number: 41,
                place,
                layer: Layer::Line,
            },
            LineFault::Long => Refusal {
                number: 43,
                place: 200,
                layer: Layer::Line,
            },
        }
    }
}
