//! Numbers of many stretches, which may overlap: whether one of them has a number is found in logarithmic time.
#![tactic(auto)]

pub mod stretches;

pub use stretches::{Covered, Stretch};
