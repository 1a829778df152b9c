//! A load that anyone can repeat: a graph, and a script of commands that follows from their count.
#![tactic(auto)]

mod counts;
mod draws;
mod graph;
mod jobspecs;
pub mod laws;
pub mod lines;

pub use counts::counts_text;
pub use graph::load_graph;
pub use lines::{LOAD_LIMITS, MOST_COMMANDS, load_text};
