// What a line is answered, as it is printed.
use fitting::fit::Fit;
use refusal::Refusal;

pub mod shows;

#[derive(Clone, Copy)]
pub struct Reply(pub Result<Fit, Refusal>);
