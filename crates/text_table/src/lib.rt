//! Texts, numbered in the order in which they were first seen.
#![tactic(auto)]

pub mod table;

pub use table::TextTable;
