// A path expression over label codes.
ghost use Rattle.std.specs.Prelude.{◌≡◌, true};
ghost use Rattle.path.specs.Paths.{steps_of};
ghost use Rattle.path.specs.Codes.{coded};

use crate::path::Path;

pub mod fault;
pub mod make;

// Each name in it is a label's code, which is at least 1.
#[derive(Clone, Copy)]
pub struct CodedPath {
    pub path: Path<u16>,
    ghost codes: { coded (steps_of path) ≡ true },
}
