// A store and a desk in whatever state a caller puts them together. (Station: a scheduler's parts, with no history to vouch for them.)
use desk::desk::Desk;
use tree::Store;

pub mod tickets;
pub mod writes;

#[derive(Drop)]
pub struct Station<S: Store> {
    pub store: S,
    pub desk: Desk,
}
