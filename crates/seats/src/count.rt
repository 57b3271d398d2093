// How many places a word has.
ghost use Rattle.std.specs.Prelude.{◌≡◌, ℕ, List, length};
ghost use Rattle.words.specs.Words.{bit};
ghost use Rattle.model.specs.Numbers.{member, Distinct, HasJust};

// The length of any list that has just these places, none of them twice.
pub fn count(word: u32) -> usize
    ensures { (ps : List ℕ) → Distinct ps → HasJust word ps → result ≡ length ps }
{
    word.count_ones() as usize
}
