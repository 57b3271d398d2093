// Why a step is not taken into a path over label codes.
ghost use Rattle.std.specs.Prelude.{◌≡◌};
ghost use Rattle.path.specs.declared.coded.fault.StepFault.TheVariants.{Many};

use bounded::Full;

#[derive(Clone, Copy, PartialEq, Debug)]
pub enum StepFault {
    // It tests for the code 0, which is no label's.
    Code,
    // There are eight steps already.
    Many,
}

impl From<Full> for StepFault {
    ghost from_gives = { λ _ y. y ≡ Many };

    fn from(_: Full) -> StepFault {
        StepFault::Many
    }
}
