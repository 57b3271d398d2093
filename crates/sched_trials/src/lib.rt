// Trials of a scheduler over both kinds of store: that it can be made, and what its calls and whole runs of turns answer.
#![tactic(auto)]

#[cfg(test)]
mod asks;
#[cfg(test)]
mod buffers;
#[cfg(test)]
mod crowd;
#[cfg(test)]
mod empty;
#[cfg(test)]
mod first_calls;
#[cfg(test)]
mod first_tickets;
#[cfg(test)]
mod full;
#[cfg(test)]
mod locks;
#[cfg(test)]
mod making;
#[cfg(test)]
mod rounds;
#[cfg(test)]
mod runs;
#[cfg(test)]
mod unfit;
