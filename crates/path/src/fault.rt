// Why a text is no path, or no label path.
ghost use Rattle.std.specs.Prelude.{◌≡◌};
ghost use Rattle.path.specs.declared.fault.PathFault.TheVariants.{Name};

use name::fault::NameFault;

#[derive(Clone, Copy)]
pub enum PathFault {
    // A name in it has a fault.
    Name(NameFault),
    // A step is empty: where it should begin.
    Empty(usize),
    // One step or label too many: where it begins.
    Many(usize),
}

impl From<NameFault> for PathFault {
    ghost from_gives = { λ x y. y ≡ Name x };

    fn from(fault: NameFault) -> PathFault {
        PathFault::Name(fault)
    }
}
