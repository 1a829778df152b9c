//! Which jobs were ever accepted: a map from their ids, of which old versions stay.
#![tactic(auto)]

mod parts;
mod tables;

pub use tables::{JobTable, Row};
