// The classes that are built in, and the class of a byte.
ghost use Rattle.std.specs.Prelude.{◌≡◌};
ghost use Rattle.byte_classes.specs.Bytes.{class_of, FollowsXML};

use crate::classes::{Class, Classes};

const B: Class = Class::Begins;

const F: Class = Class::Follows;

const N: Class = Class::Outside;

// Letters, `_` and `:` begin a name; digits, `-` and `.` may only follow. Sixteen bytes to a line, from 0.
#[rattlefmt::skip]
const BUILT_IN: [Class; 256] = [
    N, N, N, N, N, N, N, N, N, N, N, N, N, N, N, N,
    N, N, N, N, N, N, N, N, N, N, N, N, N, N, N, N,
    N, N, N, N, N, N, N, N, N, N, N, N, N, F, F, N,
    F, F, F, F, F, F, F, F, F, F, B, N, N, N, N, N,
    N, B, B, B, B, B, B, B, B, B, B, B, B, B, B, B,
    B, B, B, B, B, B, B, B, B, B, B, N, N, N, N, B,
    N, B, B, B, B, B, B, B, B, B, B, B, B, B, B, B,
    B, B, B, B, B, B, B, B, B, B, B, N, N, N, N, N,
    N, N, N, N, N, N, N, N, N, N, N, N, N, N, N, N,
    N, N, N, N, N, N, N, N, N, N, N, N, N, N, N, N,
    N, N, N, N, N, N, N, N, N, N, N, N, N, N, N, N,
    N, N, N, N, N, N, N, N, N, N, N, N, N, N, N, N,
    N, N, N, N, N, N, N, N, N, N, N, N, N, N, N, N,
    N, N, N, N, N, N, N, N, N, N, N, N, N, N, N, N,
    N, N, N, N, N, N, N, N, N, N, N, N, N, N, N, N,
    N, N, N, N, N, N, N, N, N, N, N, N, N, N, N, N,
];

impl Classes {
    // The classes of XML 1.0 names, for bytes up to 127.
    pub fn built_in() -> Classes
        ensures { FollowsXML result }
    {
        Classes { table: BUILT_IN }
    }

    pub fn class_of(&self, byte: u8) -> Class
        ensures { result ≡ class_of self.now byte }
    {
        self.table[byte as usize]
    }
}
