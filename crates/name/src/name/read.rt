// Reading a name.
ghost use Rattle.std.specs.Prelude.{◌≡◌, ◌≤◌, length, is_ok, Decides};
ghost use Rattle.name.specs.Names.{Spot, byte_check, bytes_check, bytes_of, read_name, spot, seen, IsName};

use crate::fault::{NameCause, NameFault};
use crate::name::{Name, Part};
use bounded::Bounded;
use byte_classes::classes::{Class, Classes};

const LONGEST: usize = 16;

// Judges one byte of a name, which `before` others stand in front of.
fn check_byte(classes: &Classes, before: usize, at: usize, byte: u8) -> Result<(), NameFault>
    ensures { result ≡ byte_check classes.now before at byte }
{
    let allowed = match classes.class_of(byte) {
        Class::Begins => true,
        Class::Follows => before > 0,
        Class::Outside => false,
    };
    if !allowed {
        return Err(NameFault {
            cause: NameCause::Byte,
            at,
        });
    }
    if before >= LONGEST {
        return Err(NameFault {
            cause: NameCause::Long,
            at,
        });
    }
    Ok(())
}

// Judges all bytes of a name; the first fault ends it.
fn check_bytes(classes: &Classes, part: Part) -> Result<(), NameFault>
    ensures { result ≡ bytes_check classes.now 0 part.entry.at (bytes_of part.entry) }
{
    for (before, byte) in part.bytes().iter().enumerate() {
        check_byte(classes, before, part.at + before, *byte)?;
    }
    Ok(())
}

// The name with these bytes.
fn copied(bytes: &[u8], at: usize) -> Name
    requires { (1 ≤ length bytes.now) × (length bytes.now ≤ 16) }
    ensures { spot result ≡ record { bytes = bytes.entry.now; at = at } }
{
    Name {
        bytes: Bounded::copied(0, bytes),
        at,
    }
}

impl Name {
    // Reads all of the part as a name.
    pub fn read(classes: &Classes, part: Part) -> Result<Name, NameFault>
        ensures answer { seen result ≡ read_name classes.now part.entry.at (bytes_of part.entry) }
        ensures accepts { Decides (is_ok result) (IsName classes.now (bytes_of part.entry)) }
    {
        if part.bytes().is_empty() {
            return Err(NameFault {
                cause: NameCause::Empty,
                at: part.at,
            });
        }
        check_bytes(classes, part)?;
        Ok(copied(part.bytes(), part.at))
    }
}
