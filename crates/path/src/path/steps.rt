// The steps of a path.
ghost use Rattle.std.specs.Prelude.{◌≡◌, ◌≤◌, false, [], ◌∷◌, ◌++◌, length, if◌then◌else◌, is_ok, Ok, Err, nat_lt};
ghost use Rattle.path.specs.Paths.{steps_of};

use crate::path::Path;
use crate::step::{Step, Test};
use bounded::{Bounded, Full};

impl<L: Copy> Path<L> {
    // The path of one step.
    pub fn one(test: Test<L>) -> Path<L>
        ensures { steps_of result ≡ record { deep = false; test = test } ∷ [] }
    {
        let first = Step { deep: false, test };
        Path {
            steps: Bounded::copied(first, &[first]),
        }
    }

    // One step more, where there are not eight yet.
    pub fn push(&mut self, step: Step<L>) -> Result<(), Full>
        ensures answer { result ≡ (if nat_lt (length (steps_of self.old)) 8 then Ok tt else Err (record {})) }
        ensures after { steps_of self.new ≡ (if is_ok result then steps_of self.old ++ step ∷ [] else steps_of self.old) }
    {
        self.steps.push(step)
    }
}

impl<L> Path<L> {
    // How many steps: one to eight.
    pub fn len(&self) -> usize
        ensures value { result ≡ length (steps_of self.now) }
        ensures bound { (1 ≤ result) × (result ≤ 8) }
    {
        self.steps.len()
    }

    pub fn steps(&self) -> &[Step<L>]
        ensures { result.now ≡ steps_of self.now }
    {
        self.steps.as_slice()
    }
}
