// Sets of places from 0 to 31 as words: place k is in the set where bit k is set. A place is any number, as a narrower type would ask
// more of callers; loops elsewhere put places in one by one, as a chain would need the same body.
#![tactic(auto)]

ghost use Rattle.std.specs.Prelude.{◌≡◌, ℕ, ◌<◌, not, ◌&&◌, ◌||◌, ◌==◌, nat_lt};
ghost use Rattle.words.specs.Words.{bit, word_of};

// Whether the place is in the set.
pub fn has(word: u32, place: usize) -> bool
    ensures { result ≡ bit word place }
{
    place < 32 && (word >> place) % 2 == 1
}

// The set with the place put in; there is no place from 32 on.
pub fn with(word: u32, place: usize) -> u32
    ensures { (k : ℕ) → bit result k ≡ (bit word k || (nat_lt place 32 && k == place)) }
{
    if place < 32 {
        word | (1 << place)
    } else {
        word
    }
}

// The set with the place taken out.
pub fn without(word: u32, place: usize) -> u32
    ensures { (k : ℕ) → bit result k ≡ (bit word k && not (k == place)) }
{
    if place < 32 {
        word & !(1 << place)
    } else {
        word
    }
}

// The places of the word that are not in `gone`.
pub fn minus(word: u32, gone: u32) -> u32
    ensures places { (k : ℕ) → bit result k ≡ (bit word k && not (bit gone k)) }
    ensures value { result ≡ word_of (λ k. bit word k && not (bit gone k)) }
{
    word & !gone
}
