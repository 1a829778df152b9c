//! From what a jobspec asks for (RFC 14) to needs: which types a graph has, which slots are multiplied out, and what
//! is asked for wrongly.
#![tactic(auto)]

mod pairs;
pub mod raw;
pub mod shaping;
mod types;

pub use raw::{RawNeed, ShapeFault};
pub use shaping::shape;
