//! Numbers that look random and are the same in each run, for programs that compare many calls with plain answers.
#![tactic(auto)]

mod seeds;

pub use seeds::Seed;
