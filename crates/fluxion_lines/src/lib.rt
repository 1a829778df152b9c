//! Lines of commands, read, and the lines that answer them.
#![tactic(auto)]

mod columns;
mod commands;
pub mod input;
mod lines;
mod reasons;
pub mod replies;
pub mod scripts;
mod words;

pub use columns::line_feeds;
pub use commands::Form;
pub use input::{Input, InputFault, Over, read_lines};
pub use replies::{history_text, line_text};
pub use scripts::read_input;
