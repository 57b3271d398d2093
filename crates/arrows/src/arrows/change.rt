// Arrows that come and go.
ghost use Rattle.std.specs.Prelude.{◌≡◌, ℕ, false, not, ◌&&◌, ◌||◌, ◌==◌, nat_lt};
ghost use Rattle.words.specs.Words.{bit};
ghost use Rattle.arrows.specs.Between.{between};

use crate::arrows::Arrows;
use words::{has, minus};

impl Arrows {
    // No arrow.
    pub fn new() -> Arrows
        ensures { (i j : ℕ) → between result i j ≡ false }
    {
        Arrows { into: [0; 32] }
    }

    // Arrows from the places `rivals` to `place`; there is no place from 32 on.
    pub fn put(&mut self, place: usize, rivals: u32)
        ensures { (i j : ℕ) → between self.new i j ≡ (between self.old i j || (nat_lt place 32 && (j == place && bit rivals i))) }
    {
        if place < 32 {
            self.into[place] |= rivals;
        }
    }

    // Takes away the arrows from and to the places.
    pub fn cut(&mut self, places: u32)
        ensures { (i j : ℕ) → between self.new i j ≡ (between self.old i j && not (bit places i) && not (bit places j)) }
    {
        for (place, sources) in self.into.iter_mut().enumerate() {
            *sources = if has(places, place) {
                0
            } else {
                minus(*sources, places)
            };
        }
    }
}
