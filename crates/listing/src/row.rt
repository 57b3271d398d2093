// A row of the listing. It does not hold its parent's name: the parent is the nearest earlier row one level up.
#[derive(Clone, Copy)]
pub(crate) struct Row {
    pub name: u64,
    pub depth: u16,
    pub label: u16,
    pub mark: u32,
    pub note: u32,
}

// Where a new row goes, and at what depth.
#[derive(Clone, Copy)]
pub(crate) struct Seat {
    pub index: usize,
    pub depth: u16,
}
