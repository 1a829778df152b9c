//! Jobspecs in the canonical form (RFC 14), read over a graph.
#![tactic(auto)]

mod canonical;

pub use canonical::{read_canon, read_canon_in};
