//! The program as one call: words, files, input and output in, a status out.
#![tactic(auto)]

mod answering;
mod fault_texts;
pub mod laws;
mod loading;
pub mod running;
pub mod status;
mod summing;

pub use running::run;
pub use status::{Limited, Status, Which, code, fault_line};
