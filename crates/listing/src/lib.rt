// A store of records as a listing of the tree: rows in preorder, each with its depth.
#![tactic(auto)]

mod find;
mod listing;
mod make;
mod row;
mod store;

pub use listing::Listing;
