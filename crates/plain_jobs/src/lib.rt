//! What a plain list of jobs leaves free of a graph. Each query walks the list: later layers are compared with it.
#![tactic(auto)]

pub mod containment;
pub mod jobs;
pub mod takes;
pub mod view;

pub use view::PlainJobs;
