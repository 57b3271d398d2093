// Fitting from the end: a word of the places of a path from which on its steps fit the labels read so far.
// Labels are read from the last to the first, so that a climb towards the root can read them as it meets them.
ghost use Rattle.std.specs.Prelude.{◌≡◌, List, [], ◌∷◌};
ghost use Rattle.path.specs.Paths.{steps_of};
ghost use Rattle.fitting.specs.declared.fit.Ending.{Ending};
ghost use Rattle.fitting.specs.Fitting.{passes, takes, Reads};

use crate::fit::Ending;
use crate::label::Label;
use path::path::Path;
use path::step::{Step, Test};
use words::{has, with};

fn passes<L: Label>(test: &Test<L>, label: &L) -> bool
    ensures { result ≡ passes L.Label.same test.now label.now }
{
    match test {
        Test::Star => true,
        Test::Name(name) => name.is_label(label),
    }
}

// Whether a step and those behind it fit a label and what follows it: `onward` says that those behind it fit what follows,
// `here` that the step and those behind it do.
fn takes<L: Label>(step: &Step<L>, label: &L, onward: bool, here: bool) -> bool
    ensures { result ≡ takes L.Label.same step.now label.now onward here }
{
    (onward && passes(&step.test, label)) || (here && step.deep)
}

// The places before any label is read.
pub fn begin<L: Label>(path: &Path<L>, ending: Ending) -> u32
    ensures { Reads L.Label.same ending (steps_of path.now) [] result }
{
    match ending {
        Ending::Closed => 1 << path.len(),
        Ending::Open => 1 << (path.len() - 1),
    }
}

// The places with one label more in front of those read so far, of which no field of a struct could tell.
pub fn back<L: Label>(path: &Path<L>, places: u32, label: &L) -> u32
    ensures { (e : Ending) (ls : List L) → Reads L.Label.same e (steps_of path.now) ls places → Reads L.Label.same e (steps_of path.now) (label.now ∷ ls) result }
{
    let mut next = 0;
    for (k, step) in path.steps().iter().enumerate() {
        if takes(step, label, has(places, k + 1), has(places, k)) {
            next = with(next, k);
        }
    }
    next
}
