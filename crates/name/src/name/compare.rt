// What a name says, and whether two say the same.
ghost use Rattle.std.specs.Prelude.{◌≡◌};
ghost use Rattle.std.specs.Str.{bytes_eq};
ghost use Rattle.std.specs.Cmp.Rules.{comparing};
ghost use Rattle.std.proofs.Common.{rules};
ghost use Rattle.name.specs.Names.{spot};

use crate::name::Name;

impl Name {
    // The offset in the text that it was read from.
    pub fn at(&self) -> usize
        ensures { result ≡ (spot self.now).at }
    {
        self.at
    }

    pub fn bytes(&self) -> &[u8]
        ensures { result.now ≡ (spot self.now).bytes }
    {
        self.bytes.as_slice()
    }
}

// Two are equal if they have the same bytes, wherever they were written; a derived test would compare the offsets too.
impl PartialEq for Name {
    ghost eq = { λ x y. bytes_eq (spot x).bytes (spot y).bytes };

    ghost laws = { Prim.search (comparing, rules) };

    fn eq(&self, other: &Name) -> bool {
        self.bytes() == other.bytes()
    }
}

impl Eq for Name {
    ghost laws = { Prim.search (comparing, rules) };
}
