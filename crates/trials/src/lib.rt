//! Trials of whole runs: the program over objects in memory of which a call fails, with several clients on threads, and
//! with a gate that keeps clients at places. What comes from bytes and goes to bytes is a worked row (`worked_rows`).
#![tactic(auto)]

#[cfg(test)]
mod crowds;
#[cfg(test)]
mod gated;
#[cfg(test)]
mod gates;
#[cfg(test)]
mod running;
#[cfg(test)]
mod runs;
