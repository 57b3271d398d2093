// Labels, which fitting only compares.
ghost use Rattle.std.specs.Prelude.{◌≡◌, Bool, true, nat_eq, refl};
ghost use Rattle.std.specs.Str.{bytes_eq};
ghost use Rattle.name.specs.Names.{spot};
ghost use Rattle.std.proofs.Common.{rules};
ghost use Rattle.std.proofs.lemmas.Slice.Eq.{bytes_eq-Decides};

use name::name::Name;

// No impl for whatever is compared by `==`: a type that is could then give no other test.
pub trait Label {
    // Whether two are the same label.
    ghost same: { Self → Self → Bool };

    fn is_label(&self, other: &Self) -> bool
        ensures { result ≡ same self.now other.now };

    // All that fitting asks of the test.
    ghost reflexive: { (x : Self) → same x x ≡ true };
}

// A label's code in the tree.
impl Label for u16 {
    ghost same = { nat_eq };

    ghost reflexive = { Prim.search rules };

    fn is_label(&self, other: &u16) -> bool {
        *self == *other
    }
}

// A label written out, wherever it was written.
impl Label for Name {
    ghost same = { λ x y. bytes_eq (spot x).bytes (spot y).bytes };

    ghost reflexive = { λ x. (bytes_eq-Decides (spot x).bytes (spot x).bytes).1 refl };

    fn is_label(&self, other: &Name) -> bool {
        self == other
    }
}
