// Answering a line: a label path, a space and an expression.
ghost use Rattle.std.specs.Prelude.{◌≡◌};
ghost use Rattle.trial.specs.Lines.{line_answer, TriesFields};

use crate::fault::LineFault;
use crate::labels::read::read_labels;
use crate::tries::try_path;
use byte_classes::classes::Classes;
use fitting::fit::Fit;
use name::name::Part;

const LONGEST: usize = 200;

// The length is judged first, then the fields from the left, a surplus one last.
pub fn answer_line(classes: &Classes, line: &[u8]) -> Result<Fit, LineFault>
    ensures answer { result ≡ line_answer classes.now line.now }
    ensures means { TriesFields classes.now line.now result }
{
    if line.len() > LONGEST {
        return Err(LineFault::Long);
    }
    let end = Part { text: line, at: 0 }.end_before(b' ');
    if end == 0 {
        return Err(LineFault::Field(0));
    }
    let labels = Part {
        text: &line[0..end],
        at: 0,
    };
    let at = end + 1;
    let stop = Part { text: line, at }.end_before(b' ');
    if stop == at {
        let _ = read_labels(classes, labels)?;
        return Err(LineFault::Field(at.min(line.len())));
    }
    let expression = Part {
        text: &line[0..stop],
        at,
    };
    let fit = try_path(classes, labels, expression)?;
    if stop < line.len() {
        return Err(LineFault::Field(stop + 1));
    }
    Ok(fit)
}
