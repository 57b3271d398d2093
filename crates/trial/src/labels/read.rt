// Reading a label path: names joined by slashes.
ghost use Rattle.std.specs.Prelude.{◌≡◌, suc, true, length};
ghost use Rattle.name.specs.Names.{bytes_of};
ghost use Rattle.path.specs.Pieces.{piece};
ghost use Rattle.trial.specs.Labels.{read_label, read_labels, seen_label, seen_labels, AcceptsLabels};

use crate::labels::Labels;
use byte_classes::classes::Classes;
use name::name::{Name, Part};
use path::fault::PathFault;
use path::read::surplus;

const MOST: usize = 16;

// Reads the label that the part begins with, behind `count` others; beside it, where the label ends.
fn read_label(classes: &Classes, count: usize, part: Part) -> Result<(Name, usize), PathFault>
    ensures { seen_label result ≡ read_label classes.now count part.entry.at (bytes_of part.entry) }
{
    let end = part.end_before(b'/');
    if part.at >= end {
        return Err(PathFault::Empty(part.at));
    }
    if count >= MOST {
        return Err(surplus(classes, part.text[part.at], part.at));
    }
    let name = Name::read(
        classes,
        Part {
            text: &part.text[0..end],
            at: part.at,
        },
    )?;
    Ok((name, end))
}

// Reads all of the part as a label path.
pub fn read_labels(classes: &Classes, part: Part) -> Result<Labels, PathFault>
    ensures answer { seen_labels result ≡ read_labels classes.now part.entry.at (bytes_of part.entry) }
    ensures accepts { AcceptsLabels classes.now (bytes_of part.entry) (seen_labels result) }
{
    let (first, end) = read_label(classes, 0, part)?;
    let mut labels = Labels::one(first);
    let mut at = end;
    // By rule the loop is left from inside, with the fault and its place.
    loop {
        if at >= part.text.len() {
            break Ok(labels);
        }
        let behind = Part { at: at + 1, ..part };
        let (name, end) = match read_label(classes, labels.len(), behind) {
            Ok(next) => next,
            Err(fault) => break Err(fault),
        };
        // There is room: no seventeenth label is read.
        let _ = labels.push(name);
        at = end;
    }
}
