//! A script that all its clients play at once, each in a thread, as one history.
//!
//! [`play_script`] makes a session and a seat for each client of the script, serves all sessions beside each other
//! (`match_workers`) at one book (`commit_book`), takes all seats in again and closes the book. What comes of it is one
//! history of a scheduler of one thread, however the threads interleave: its entries answer the lines of the script,
//! each once, each client's in their order (`specs/Together.antt`).
#![tactic(auto)]

mod playing;

pub use playing::{Played, play_script};
