// Why a line is not answered.
ghost use Rattle.std.specs.Prelude.{◌≡◌};
ghost use Rattle.trial.specs.declared.fault.LineFault.TheVariants.{Path};

use path::fault::PathFault;

#[derive(Clone, Copy)]
pub enum LineFault {
    // The label path or the expression has a fault.
    Path(PathFault),
    // A field is empty or surplus: where it begins; or it is missing: where the line ends.
    Field(usize),
    // The line has more than 200 bytes.
    Long,
}

impl From<PathFault> for LineFault {
    ghost from_gives = { λ x y. y ≡ Path x };

    fn from(fault: PathFault) -> LineFault {
        LineFault::Path(fault)
    }
}
