// What a byte may do in a name, and a class for each byte.
ghost use Rattle.std.specs.Prelude.{◌≡◌, length, slice_index_or};
ghost use Rattle.byte_classes.specs.declared.classes.Class.TheVariants.{Outside};

pub mod table;

#[derive(Clone, Copy)]
pub enum Class {
    // It may begin a name, and it may follow.
    Begins,
    // It may only follow.
    Follows,
    // It is no name byte.
    Outside,
}

// A class for each of the 256 bytes. `/` and `*` are bytes of the grammar of paths, so neither is a name byte.
#[derive(Clone, Copy)]
pub struct Classes {
    table: [Class; 256],
    ghost whole: { length table ≡ 256 },
    ghost slash: { slice_index_or table 47 Outside ≡ Outside },
    ghost star: { slice_index_or table 42 Outside ≡ Outside },
}
