//! Any order of looks, searches, commits and decisions of several clients is one legal history.
#![tactic(auto)]

mod flights;
mod laws;
pub mod machines;
mod placing;

pub use laws::any_order_is_one_history;
pub use machines::Machine;
