// The seven calls, and the turns in which the kiosks make them.
use model::kiosk::Kiosk;
use path::query::Query;

// A node goes by its name, a label by its code.
#[derive(Clone, Copy)]
pub enum Call {
    Open,
    Ask(u32, Query),
    Add(u32, u64, u16),
    Remove(u32, u64),
    Finish(u32),
    Withdraw(u32),
    Order,
}

#[derive(Clone, Copy)]
pub struct Turn {
    pub kiosk: Kiosk,
    pub call: Call,
}
