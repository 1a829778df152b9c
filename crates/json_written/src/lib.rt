//! JSON as it is written: texts as JSON holds them, and members put one by one. Its laws say that a value whose text
//! was written is read again.
#![tactic(auto)]

mod members;

pub use members::{put_number, put_text, readable};
