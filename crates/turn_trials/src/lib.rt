//! Trials of clients on threads, at a value that they change in turn and at a desk in memory.
#![tactic(auto)]

#[cfg(test)]
mod listed;
#[cfg(test)]
mod listing;
#[cfg(test)]
mod turns;
