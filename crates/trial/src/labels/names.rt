// The names of a label path.
ghost use Rattle.std.specs.Prelude.{◌≡◌, [], ◌∷◌, ◌++◌, length, if◌then◌else◌, is_ok, Ok, Err, nat_lt};
ghost use Rattle.trial.specs.Rows.{names_of};

use crate::labels::Labels;
use bounded::{Bounded, Full};
use name::name::Name;

impl Labels {
    // The label path of one name.
    pub fn one(name: Name) -> Labels
        ensures { names_of result ≡ name ∷ [] }
    {
        Labels {
            names: Bounded::copied(name, &[name]),
        }
    }

    pub fn len(&self) -> usize
        ensures { result ≡ length (names_of self.now) }
    {
        self.names.len()
    }

    // One name more, where there are not sixteen yet.
    pub fn push(&mut self, name: Name) -> Result<(), Full>
        ensures answer { result ≡ (if nat_lt (length (names_of self.old)) 16 then Ok tt else Err (record {})) }
        ensures after { names_of self.new ≡ (if is_ok result then names_of self.old ++ name ∷ [] else names_of self.old) }
    {
        self.names.push(name)
    }

    pub fn names(&self) -> &[Name]
        ensures { result.now ≡ names_of self.now }
    {
        self.names.as_slice()
    }
}
