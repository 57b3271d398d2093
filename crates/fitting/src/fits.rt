// The one rule of fitting, for label codes in the tree and for names written out.
ghost use Rattle.std.specs.Prelude.{◌≡◌, true};
ghost use Rattle.path.specs.Paths.{steps_of};
ghost use Rattle.fitting.specs.Fitting.{fits, verdict};
ghost use Rattle.fitting.specs.Language.{FitsPath, Says};

use crate::backward::{back, begin};
use crate::fit::{Ending, Fit};
use crate::label::Label;
use path::path::Path;
use words::has;

// Whether the label path fits: at most one test for each label and step, and none once nothing in front can help.
pub fn fits<L: Label>(labels: &[L], ending: Ending, path: &Path<L>) -> Fit
    ensures answer { result ≡ verdict (fits L.Label.same ending (steps_of path.now) labels.now) }
    ensures means { (some : L) → Says result (FitsPath (λ x y. L.Label.same x y ≡ true) ending (steps_of path.now) labels.now) }
{
    let mut places = begin(path, ending);
    for label in labels.iter().rev() {
        places = back(path, places, label);
        if places == 0 {
            return Fit::No;
        }
    }
    Fit::from(has(places, 0))
}
