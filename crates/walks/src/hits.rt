// The names that a query has found.
ghost use Rattle.std.specs.Prelude.{◌≤◌, vec_capacity};

pub mod find;
pub mod read;

// Memory for as many names as a store of any kind has is there from the making. The `Vec` stands bare: a type around it would only
// repeat its methods.
#[derive(Drop)]
pub struct Hits {
    names: Vec<u64>,
    ghost room: { 1024 ≤ vec_capacity names },
}
