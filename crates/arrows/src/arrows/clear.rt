// Places to which no arrow comes.
ghost use Rattle.std.specs.Prelude.{◌≡◌, ℕ, not, ◌&&◌};
ghost use Rattle.words.specs.Words.{bit};
ghost use Rattle.tree.specs.Lists.{some_of};
ghost use Rattle.model.specs.Numbers.{places};
ghost use Rattle.arrows.specs.Between.{between};

use crate::arrows::Arrows;
use words::without;

impl Arrows {
    // The places of `among` to which no arrow comes from one of them.
    pub fn clear_of(&self, among: u32) -> u32
        ensures { (i : ℕ) → bit result i ≡ (bit among i && not (some_of (λ j. between self.now j i && bit among j) places)) }
    {
        let mut clear = among;
        for (place, sources) in self.into.iter().enumerate() {
            if *sources & among != 0 {
                clear = without(clear, place);
            }
        }
        clear
    }
}
