// A store of records, known by its meaning alone: the records, rising by name, and the limit.
// The records are empty or a tree with the root `0.0`.
ghost use Rattle.std.specs.Prelude.{◌≡◌, ℕ, ◌≤◌, true, length};
ghost use Rattle.tree.specs.Records.{rises, labelled, look, next_name};
ghost use Rattle.tree.specs.Trees.{nodes, IsTree};
ghost use Rattle.tree.specs.Stores.{Meaning, holding};
ghost use Rattle.tree.specs.Calls.{place_answer, place_after, tag_answer, tag_after, discard_answer, discard_after};

use crate::record::{Record, Refused};

pub trait Store: Sized {
    // The largest limit of a store of this kind.
    const LARGEST: usize;

    ghost LARGEST: { ℕ };

    ghost meaning: { Self → Meaning };

    final fn ceiling() -> usize
        ensures answer { result ≡ LARGEST }
    {
        Self::LARGEST
    }

    fn count(&self) -> usize
        ensures answer { result ≡ length (meaning self.now).records };

    fn limit(&self) -> usize
        ensures answer { result ≡ (meaning self.now).most };

    // The least name greater than `name`.
    fn next_above(&self, name: u64) -> Option<u64>
        ensures answer { result ≡ next_name name (meaning self.now).records };

    fn look(&self, name: u64) -> Option<Record>
        ensures answer { result ≡ look name (meaning self.now).records };

    // The parameters of this call and the next are the parts of a record that it sets; no other function takes them together.
    // Adds a live record that no ticket knows.
    fn place(&mut self, name: u64, parent: u64, label: u16) -> Result<(), Refused>
        ensures answer { result ≡ place_answer (meaning self.old).most name parent label (meaning self.old).records }
        ensures after { meaning self.new ≡ holding (meaning self.old) (place_after (meaning self.old).most name parent label (meaning self.old).records) };

    // Sets a record's mark and note.
    fn tag(&mut self, name: u64, mark: u32, note: u32) -> Result<(), Refused>
        ensures answer { result ≡ tag_answer name (meaning self.old).records }
        ensures after { meaning self.new ≡ holding (meaning self.old) (tag_after name mark note (meaning self.old).records) };

    // Takes a record out that is no other record's parent.
    fn discard(&mut self, name: u64) -> Result<(), Refused>
        ensures answer { result ≡ discard_answer name (meaning self.old).records }
        ensures after { meaning self.new ≡ holding (meaning self.old) (discard_after name (meaning self.old).records) };

    ghost rising: { (s : Self) → rises (meaning s).records ≡ true };

    ghost tree: { (s : Self) → ∥ IsTree (nodes (meaning s).records) ∥₁ };

    ghost labels: { (s : Self) → labelled (meaning s).records ≡ true };

    ghost within: { (s : Self) → length (meaning s).records ≤ (meaning s).most };

    ghost bounded: { (s : Self) → (meaning s).most ≤ LARGEST };

    ghost small: { LARGEST ≤ 1024 };
}
