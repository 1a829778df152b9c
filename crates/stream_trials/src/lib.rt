//! Trials of streams and shared types: each call that takes memory, once with memory to spare, failing objects in
//! memory, real files and pipes, and calls that are interrupted.
#![tactic(auto)]

#[cfg(test)]
mod shared_types;
#[cfg(test)]
mod streams;
