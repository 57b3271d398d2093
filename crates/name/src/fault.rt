// Why a text is no name.
#[derive(Clone, Copy)]
pub enum NameCause {
    // No byte stands where the name should begin.
    Empty,
    // The byte is no name byte, or may not begin a name.
    Byte,
    // It would be the seventeenth byte.
    Long,
}

#[derive(Clone, Copy)]
pub struct NameFault {
    pub cause: NameCause,
    pub at: usize,
}
