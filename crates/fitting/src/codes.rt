// Fitting at label codes.
ghost use Rattle.std.specs.Prelude.{◌≡◌, nat_eq};
ghost use Rattle.path.specs.CodedPaths.{code_steps};
ghost use Rattle.fitting.specs.Fitting.{fits, verdict};
ghost use Rattle.fitting.specs.Language.{FitsPath, Says};

use crate::fit::{Ending, Fit};
use crate::fits::fits;
use path::coded::CodedPath;

// Whether a label path of the tree fits.
pub fn fits_codes(labels: &[u16], ending: Ending, path: &CodedPath) -> Fit
    ensures answer { result ≡ verdict (fits nat_eq ending (code_steps path.now) labels.now) }
    ensures means { Says result (FitsPath ◌≡◌ ending (code_steps path.now) labels.now) }
{
    fits(labels, ending, &path.path)
}
