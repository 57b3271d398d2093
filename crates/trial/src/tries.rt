// Trying a label path against an expression.
ghost use Rattle.std.specs.Prelude.{◌≡◌};
ghost use Rattle.name.specs.Names.{bytes_of};
ghost use Rattle.trial.specs.Tries.{try_answer, Tries};

use crate::labels::read::read_labels;
use byte_classes::classes::Classes;
use fitting::fit::{Ending, Fit};
use fitting::fits::fits;
use name::name::Part;
use path::fault::PathFault;
use path::read::read_path;

// Whether the written label path is one of the written expression's. The label path is read first.
pub fn try_path(classes: &Classes, labels: Part, expression: Part) -> Result<Fit, PathFault>
    ensures answer { result ≡ try_answer classes.now labels.entry.at (bytes_of labels.entry) expression.entry.at (bytes_of expression.entry) }
    ensures means { Tries classes.now (bytes_of labels.entry) (bytes_of expression.entry) result }
{
    let labels = read_labels(classes, labels)?;
    let path = read_path(classes, expression)?;
    Ok(fits(labels.names(), Ending::Closed, &path))
}
