// Why a call is refused.
ghost use Rattle.std.specs.Prelude.{◌≡◌};
ghost use Rattle.calls.specs.Reasons.{number_of};

// In the order of their numbers: where several apply, the first is given.
#[derive(Clone, Copy, PartialEq, Eq, Debug)]
pub enum Reason {
    // The scheduler was made over a store that it cannot begin with.
    Unfit,
    NotOpen,
    // The node is absent, or the ticket does not know it.
    Unknown,
    // The node is removed.
    Marked,
    // 0 is no label's code.
    NoLabel,
    // The root cannot be removed.
    Root,
    // The node has a live child.
    Parent,
    // The buffer is shorter than the answer.
    Short,
    // The lock book has too few free rows.
    Locks,
    // The store is full.
    Full,
    // The arrows would close a ring.
    Ring,
    // An arrow comes from an open ticket.
    Later,
    // 32 tickets are open.
    Crowded,
    // There is no ticket left to give.
    Spent,
}

// The number by which a refusal is answered. Written out and no discriminants, so that one reason's wrong number can be planted.
impl From<Reason> for u8 {
    ghost from_gives = { λ reason number. number ≡ number_of reason };

    fn from(reason: Reason) -> u8 {
        match reason {
            Reason::Unfit => 1,
            Reason::NotOpen => 2,
            Reason::Unknown => 3,
            Reason::Marked => 4,
            Reason::NoLabel => 5,
            Reason::Root => 6,
            Reason::Parent => 7,
            Reason::Short => 8,
            Reason::Locks => 9,
            Reason::Full => 10,
            Reason::Ring => 11,
            Reason::Later => 12,
            Reason::Crowded => 13,
            Reason::Spent => 14,
        }
    }
}
