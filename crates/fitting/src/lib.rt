// Which label paths fit a path expression.
#![tactic(auto)]

pub mod backward;
pub mod codes;
pub mod fit;
pub mod fits;
pub mod label;
pub mod shows;
