// What a call is answered.
use crate::reason::Reason;

// By rule a list is of names or of tickets; N and T are what stands for each. A refusal is an answer, with a number as each has its
// values.
#[derive(Clone, Copy, PartialEq, Debug, Drop)]
pub enum Answer<N, T> {
    Ticket(u32),
    Found(N),
    Made(u64),
    Removed,
    Finished(u32),
    Withdrawn(T),
    Ordered(T),
    Refused(Reason),
}

// The answer that has the length of its list, which stands at the start of the buffer that the caller lends.
pub type Counted = Answer<usize, usize>;
