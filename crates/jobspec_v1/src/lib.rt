//! Jobspecs of version 1 (RFC 25), read over a graph; and the reading of request vertices, tasks and attributes, which
//! every jobspec (RFC 14) has.
#![tactic(auto)]

pub mod attributes;
pub mod faults;
mod forms;
pub mod headers;
pub mod jobspecs;
pub mod requests;
pub mod tasks;

pub use faults::SpecFault;
pub use jobspecs::{read_v1, read_v1_in};
