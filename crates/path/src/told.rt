// What is told of a path's fault.
ghost use Rattle.std.specs.Prelude.{◌≡◌};
ghost use Rattle.path.specs.Refusals.{path_refusal};

use crate::fault::PathFault;
use refusal::{Layer, Refusal};

impl From<PathFault> for Refusal {
    ghost from_gives = { λ x y. y ≡ path_refusal x };

    fn from(fault: PathFault) -> Refusal {
        match fault {
            PathFault::Name(fault) => Refusal::from(fault),
            PathFault::Empty(place) => Refusal {
                number: 31,
                place,
                layer: Layer::Path,
            },
            PathFault::Many(place) => Refusal {
                number: 34,
                place,
                layer: Layer::Path,
            },
        }
    }
}
