//! Lists of which old versions stay: a copy costs two shared nodes, and a change copies the nodes on its way that an
//! older list holds too, four for 65,536 items.
#![tactic(auto)]

mod changes;
mod pages;
mod parts;
mod trees;

pub use changes::Change;
pub use pages::Pages;
