// Examples of fitting.
ghost use Rattle.std.specs.Prelude.{◌≡◌, true, length};
ghost use Rattle.trial.specs.Examples.{examples, all_hold};

// How many examples of fitting are stated, each of which holds.
pub fn examples_hold() -> usize
    ensures count { result ≡ length examples }
    ensures hold { all_hold examples ≡ true }
{
    13
}
