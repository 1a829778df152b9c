//! What overtook a candidate: a walk over the entries since it was searched, and over its claims, whatever the size of
//! the graph.
#![tactic(auto)]

mod causes;
mod entries;
mod overtaking;
mod scans;

pub use causes::Cause;
pub use overtaking::overtaken;
