// What is told of a name's fault.
ghost use Rattle.std.specs.Prelude.{◌≡◌};
ghost use Rattle.name.specs.Refusals.{name_refusal};

use crate::fault::{NameCause, NameFault};
use refusal::{Layer, Refusal};

impl From<NameFault> for Refusal {
    ghost from_gives = { λ x y. y ≡ name_refusal x };

    fn from(fault: NameFault) -> Refusal {
        let number = match fault.cause {
            NameCause::Empty => 31,
            NameCause::Byte => 32,
            NameCause::Long => 33,
        };
        Refusal {
            number,
            place: fault.at,
            layer: Layer::Name,
        }
    }
}
