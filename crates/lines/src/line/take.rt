// Taking a line in.
ghost use Rattle.std.specs.Prelude.{◌≡◌, [], ◌∷◌, ◌++◌, length, take, ◌==◌};
ghost use Rattle.lines.specs.Held.{held_bytes};

use crate::line::Line;
use bounded::Bounded;

impl Line {
    // A line that has not begun.
    pub fn new() -> Line
        ensures { held_bytes result ≡ [] }
    {
        Line {
            held: Bounded::new(0),
        }
    }

    // One byte more, of which nothing is kept past the 201st.
    pub fn push(&mut self, byte: u8)
        ensures { held_bytes self.new ≡ take 201 (held_bytes self.old ++ byte ∷ []) }
    {
        let _ = self.held.push(byte);
    }

    // Whether no byte has come.
    pub fn is_empty(&self) -> bool
        ensures { result ≡ (length (held_bytes self.now) == 0) }
    {
        self.held.is_empty()
    }

    pub fn clear(&mut self)
        ensures { held_bytes self.new ≡ [] }
    {
        self.held.clear();
    }

    pub fn bytes(&self) -> &[u8]
        ensures { result.now ≡ held_bytes self.now }
    {
        self.held.as_slice()
    }
}
