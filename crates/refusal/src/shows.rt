// How a refusal is printed.
ghost use Rattle.std.specs.Prelude.{Some};
ghost use Rattle.refusal.specs.Lines.{layer_text, refusal_text};

use crate::refusal::{Layer, Refusal};
use std::fmt;

impl fmt::Display for Layer {
    ghost output = { λ x. Some (layer_text x) };

    fn fmt<W: fmt::Write>(&self, f: &mut fmt::Formatter<W>) -> fmt::Result {
        match self {
            Layer::Name => write!(f, "name"),
            Layer::Path => write!(f, "path"),
            Layer::Line => write!(f, "line"),
        }
    }
}

impl fmt::Display for Refusal {
    ghost output = { λ x. Some (refusal_text x) };

    fn fmt<W: fmt::Write>(&self, f: &mut fmt::Formatter<W>) -> fmt::Result {
        let number = self.number;
        let place = self.place;
        let layer = self.layer;
        write!(f, "refused {number} at {place} in {layer}")
    }
}
