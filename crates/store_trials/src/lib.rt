// Trials of the stores: their answers to one script, their limits, and single rules of the tree.
#![tactic(auto)]

#[cfg(test)]
mod limits;
#[cfg(test)]
mod ops;
#[cfg(test)]
mod rules;
#[cfg(test)]
mod script;
