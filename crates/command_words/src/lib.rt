//! The words after a command: options with their values, and the name of a graph file.
#![tactic(auto)]

mod command;
mod forms;
mod reading;
mod texts;

pub use reading::{WordValues, read_words};
pub use texts::as_texts;
