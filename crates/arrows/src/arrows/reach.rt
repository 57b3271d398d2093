// What is reached along arrows.
ghost use Rattle.std.specs.Prelude.{◌≡◌, ℕ, ◌&&◌, List, nat_lt};
ghost use Rattle.words.specs.Words.{bit};
ghost use Rattle.model.specs.Numbers.{member, HasJust};
ghost use Rattle.model.specs.Arrows.{wider, reached, ring, arrow_into};
ghost use Rattle.arrows.specs.Between.{between};

use crate::arrows::Arrows;
use words::with;

impl Arrows {
    // The places of `seen`, and those to which an arrow goes from one of them.
    fn widen(&self, seen: u32) -> u32
        ensures { (ps : List ℕ) → HasJust seen ps → (q : ℕ) → bit result q ≡ member q (wider (between self.now) ps) }
    {
        let mut next = seen;
        for (place, sources) in self.into.iter().enumerate() {
            if *sources & seen != 0 {
                next = with(next, place);
            }
        }
        next
    }

    // The places that are reached from `place`, itself among them; none where it is no place.
    pub fn reach(&self, place: usize) -> u32
        ensures { (q : ℕ) → bit result q ≡ (nat_lt place 32 && member q (reached (between self.now) place)) }
    {
        if place >= 32 {
            return 0;
        }
        let mut seen = with(0, place);
        // No index: 32 rounds suffice.
        for _ in 0..32u32 {
            let next = self.widen(seen);
            if next == seen {
                return seen;
            }
            seen = next;
        }
        seen
    }

    // Whether arrows from the places `rivals` to `place` would close a ring.
    pub fn would_ring(&self, place: usize, rivals: u32) -> bool
        ensures { result ≡ (nat_lt place 32 && ring (between self.now) place (bit rivals)) }
    {
        place < 32 && rivals & self.reach(place) != 0
    }

    // Whether an arrow comes to `place`.
    pub fn arrow_into(&self, place: usize) -> bool
        ensures { result ≡ arrow_into (between self.now) place }
    {
        place < 32 && self.into[place] != 0
    }
}
