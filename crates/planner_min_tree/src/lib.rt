//! A planner as a shared balanced tree of the points at which spans start and end.
//!
//! A planner without spans takes no memory beside its own numbers. Up to 16 points stand in one node, and up to 32
//! where they are past; more are a tree of such nodes, of which planners that come from one another have most in
//! common.
#![tactic(auto)]

mod changing;
mod chunks;
mod marking;
mod near;
mod planner;
mod points;
mod timeline;
mod walks;

pub use planner::{MinTree, has_few_points};

fn goes_to_threads<T: Send + Sync>(_value: &T) {}

/// A planner may be shared by threads.
pub fn planner_goes_to_threads(planner: &MinTree) {
    goes_to_threads(planner);
}
