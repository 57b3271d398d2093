// The tokens of a path text.
use name::name::Part;

pub mod first;

#[derive(Clone, Copy)]
pub enum Token<'a> {
    // The text has ended.
    End,
    // `/`
    Child,
    // `//`
    Deep,
    // `*`
    Star,
    // What stands up to the next slash: a part of the text, not judged yet.
    Name(Part<'a>),
}
