//! Small graphs: their files, and what is read of one, for tests and for programs that play histories.
#![tactic(auto)]

mod graphs;

pub use graphs::{TWO_NODES, WITH_MEMORY, graph_of, shared_graph};
