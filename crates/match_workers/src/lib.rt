//! Clients that hand in their lines beside each other, one thread a client.
//!
//! A [`Session`] is a client with its lines and its seat at a desk. [`serve_all`] runs all sessions at once: each hands
//! in its lines in their order, and stops where no memory is left. What a session gains says its contract, over any
//! desk and any gate (`specs/Served.antt`): the positions of the entries of its lines, each line once and in order.
//!
//! No clause says that the sessions run beside each other, nor in which order lines of two of them are placed.
#![tactic(auto)]

mod serving;
mod sessions;

pub use serving::serve_all;
pub use sessions::Session;
