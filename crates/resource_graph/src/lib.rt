//! The resource graph (RFC 4): vertices in preorder with their texts, and tables that answer each query at once.
#![tactic(auto)]

pub mod chains;
pub mod graph;
mod paths;
pub mod tables;

pub use graph::{Graph, Texts};
