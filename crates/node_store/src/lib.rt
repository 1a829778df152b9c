//! What shared trees are made of: a value that several trees hold and that never changes while they do, and sixteen
//! parts side by side.
//!
//! A change of a tree is written once, in place: each node on its way that others hold too is first copied (`own`), and
//! then written to (`get_mut`). So a tree that shares its nodes with an older one leaves that one as it was; the first
//! change after a snapshot copies the nodes on its way, and each later one writes into these.
#![tactic(auto)]

mod node;
mod sixteen;

pub use node::{Node, Share};
pub use sixteen::{Sixteen, Vacant};
