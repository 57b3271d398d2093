// How a line's answer is made, and how it is printed.
ghost use Rattle.std.specs.Prelude.{◌≡◌, Some};
ghost use Rattle.trial.specs.Lines.{line_answer};
ghost use Rattle.trial.specs.Replies.{reply_of, reply_text};

use crate::line::answer_line;
use crate::reply::Reply;
use byte_classes::classes::Classes;
use fitting::fit::Fit;
use refusal::Refusal;
use std::fmt;

// What the line is answered, refused or not.
pub fn reply_to(classes: &Classes, line: &[u8]) -> Result<Fit, Refusal>
    ensures { result ≡ reply_of (line_answer classes.now line.now) }
{
    Ok(answer_line(classes, line)?)
}

impl fmt::Display for Reply {
    ghost output = { λ x. Some (reply_text x.0) };

    fn fmt<W: fmt::Write>(&self, f: &mut fmt::Formatter<W>) -> fmt::Result {
        match &self.0 {
            Ok(fit) => write!(f, "{fit}"),
            Err(refusal) => write!(f, "{refusal}"),
        }
    }
}
