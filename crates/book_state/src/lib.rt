//! The jobs of a graph over time, of which old versions stay: accounts of what they have at each vertex, in shared
//! trees, so that a job more or less costs by its claims and not by the graph or by the other jobs.
#![tactic(auto)]

mod books;
mod filtered;
mod frames;
mod held;
mod view;

pub use frames::Frame;
pub use held::{BookState, Kept};
