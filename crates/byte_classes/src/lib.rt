// Which bytes may stand in a name.
#![tactic(auto)]

pub mod classes;
