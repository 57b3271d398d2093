// A part of a text, up to a byte.
ghost use Rattle.std.specs.Prelude.{◌≡◌, ◌+◌, length};
ghost use Rattle.name.specs.Names.{bytes_of};
ghost use Rattle.name.specs.Parts.{before};

use crate::name::Part;

impl<'a> Part<'a> {
    // No bytes where the part begins past the text's end.
    pub fn bytes(self) -> &'a [u8]
        ensures { result.now ≡ bytes_of self.entry }
    {
        self.text.get(self.at..).unwrap_or(&[])
    }

    // Where the bytes in front of the next such byte end: at it, or where the part ends.
    pub fn end_before(self, byte: u8) -> usize
        ensures { result ≡ self.entry.at + length (before byte (bytes_of self.entry)) }
    {
        let bytes = self.bytes();
        match bytes.iter().position(|b| *b == byte) {
            Some(front) => self.at + front,
            None => self.at + bytes.len(),
        }
    }
}
