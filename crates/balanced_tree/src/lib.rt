//! Balanced trees of items in order, each with a measure of all its items. Trees share their nodes: a copy costs one
//! shared node, and a change writes in place what no other tree holds and copies what another does.
#![tactic(auto)]

mod edits;
mod measures;
mod trees;

pub use edits::Edit;
pub use measures::Measure;
pub use trees::{Shape, Tree};
