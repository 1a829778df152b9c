//! Constraints on nodes (RFC 31): which nodes of a graph one bars.
#![tactic(auto)]

mod bars;
mod faults;
mod keys;
mod listed;
mod narrowing;
mod nodes;
mod ranks;
mod texts;

pub use bars::barred;
pub use faults::ConstraintFault;
