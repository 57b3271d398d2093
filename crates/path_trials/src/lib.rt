// Trials of paths over label codes: their sizes, and open endings.
#![tactic(auto)]

#[cfg(test)]
mod codes;
