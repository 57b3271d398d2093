// A record of the tree: a node's name, its parent's name and its label, the ticket that removed the node (0: it is live),
// and a word with a bit for each open ticket that knows the node. The 0 is the format of a record (docs/rules.md).
#[derive(Clone, Copy)]
pub struct Record {
    pub name: u64,
    pub parent: u64,
    pub label: u16,
    pub mark: u32,
    pub note: u32,
}

// A store's only refusal: what was asked is not done, and the store means what it meant.
#[derive(Clone, Copy)]
pub struct Refused;
