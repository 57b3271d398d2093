// Trees of records, and what a store of them promises.
#![tactic(auto)]

pub mod made;
pub mod name;
pub mod record;
pub mod store;
pub mod walk;

pub use made::Made;
pub use name::{ROOT, count_of, node_name, ticket_of};
pub use record::{Record, Refused};
pub use store::Store;
pub use walk::following;
