// What is told of a text or file that is refused.

// The layer that found the fault.
#[derive(Clone, Copy)]
pub enum Layer {
    Name,
    Path,
    Line,
}

// The number of the fault, the byte offset where it is, and the layer that found it. The number is what is printed
// (docs/refusals.md); the faults themselves are enums of their layers.
#[derive(Clone, Copy)]
pub struct Refusal {
    pub number: u8,
    pub place: usize,
    pub layer: Layer,
}
