// Reading a path expression.
ghost use Rattle.std.specs.Prelude.{◌≡◌, suc, ◌<◌, ◌≤◌, true, length, drop};
ghost use Rattle.name.specs.Names.{bytes_of};
ghost use Rattle.path.specs.Grammar.{AcceptsPaths};
ghost use Rattle.path.specs.Pieces.{piece, at_slash};
ghost use Rattle.path.specs.Reading.{excess, surplus, read_step, read_path, steps_after, goes_on, EndsWell, read_behind, seen_step, seen_next, seen_path};

use crate::fault::PathFault;
use crate::path::Path;
use crate::step::{Step, Test};
use crate::token::Token;
use crate::token::first::first_token;
use byte_classes::classes::{Class, Classes};
use name::fault::{NameCause, NameFault};
use name::name::{Name, Part};

const MOST: usize = 8;

// Whether a step that goes on to `at` ends there: at a slash, or at the end of the text.
fn ends_at(text: &[u8], at: usize) -> bool
    ensures { result ≡ at_slash (drop at text.now) }
{
    matches!(text.get(at), None | Some(b'/'))
}

// Reads the step that the part begins with; beside it, where the step ends.
fn read_step(classes: &Classes, part: Part) -> Result<(Test<Name>, usize), PathFault>
    ensures { seen_step result ≡ read_step classes.now part.entry.at (bytes_of part.entry) }
{
    match first_token(part) {
        Token::Star => {
            let end = part.at + 1;
            if !ends_at(part.text, end) {
                return Err(PathFault::Name(NameFault {
                    cause: NameCause::Byte,
                    at: end,
                }));
            }
            Ok((Test::Star, end))
        }
        Token::Name(word) => Ok((Test::Name(Name::read(classes, word)?), word.text.len())),
        _ => Err(PathFault::Empty(part.at)),
    }
}

// The fault of one step or label too many that begins with the byte; a bad byte is told first.
pub fn surplus(classes: &Classes, byte: u8, at: usize) -> PathFault
    ensures { result ≡ surplus classes.now at byte }
{
    match classes.class_of(byte) {
        Class::Begins => PathFault::Many(at),
        Class::Follows | Class::Outside => PathFault::Name(NameFault {
            cause: NameCause::Byte,
            at,
        }),
    }
}

// The fault of a ninth step: at one place an empty step and a bad byte are told first.
fn excess(classes: &Classes, part: Part) -> PathFault
    ensures { result ≡ excess classes.now part.entry.at (piece (bytes_of part.entry)) }
{
    let at = part.at;
    match part.text.get(at) {
        None | Some(b'/') => PathFault::Empty(at),
        Some(b'*') => PathFault::Many(at),
        Some(byte) => surplus(classes, *byte, at),
    }
}

// The count belongs to the path that is built, and not to the part that is read.
// Reads the step that follows `count` others; `deep` says that two slashes stand before it.
fn read_behind(
    classes: &Classes,
    count: usize,
    deep: bool,
    part: Part,
) -> Result<(Step<Name>, usize), PathFault>
    ensures { seen_next result ≡ read_behind classes.now count deep part.entry.at (bytes_of part.entry) }
{
    if count >= MOST {
        return Err(excess(classes, part));
    }
    let (test, end) = read_step(classes, part)?;
    Ok((Step { deep, test }, end))
}

// Reads the next step, where the one before ends with the part's beginning; none at the end of the text.
fn read_next(
    classes: &Classes,
    count: usize,
    part: Part,
) -> Result<Option<(Step<Name>, usize)>, PathFault>
    requires { at_slash (bytes_of part) ≡ true }
    ensures steps { steps_after classes.now count part.entry.at (bytes_of part.entry) ≡ goes_on (λ end. steps_after classes.now (suc count) end (drop end part.entry.text.now)) result }
    ensures ends { EndsWell count part.entry.at part.entry.text.now result }
{
    let (deep, at) = match first_token(part) {
        Token::Child => (false, part.at + 1),
        Token::Deep => (true, part.at + 2),
        _ => return Ok(None),
    };
    let next = read_behind(classes, count, deep, Part { at, ..part })?;
    Ok(Some(next))
}

// Reads all of the part as a path expression.
pub fn read_path(classes: &Classes, part: Part) -> Result<Path<Name>, PathFault>
    ensures answer { seen_path result ≡ read_path classes.now part.entry.at (bytes_of part.entry) }
    ensures accepts { AcceptsPaths classes.now (bytes_of part.entry) (seen_path result) }
{
    let (first, end) = read_behind(classes, 0, false, part)?;
    let mut path = Path::one(first.test);
    let mut at = end;
    // By rule the loop is left from inside, with the fault and its place.
    loop {
        let next = match read_next(classes, path.len(), Part { at, ..part }) {
            Ok(next) => next,
            Err(fault) => break Err(fault),
        };
        let Some((step, end)) = next else {
            break Ok(path);
        };
        // There is room: no ninth step is read.
        let _ = path.push(step);
        at = end;
    }
}
