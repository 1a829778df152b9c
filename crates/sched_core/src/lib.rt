//! The scheduler of one thread: a setting that never changes, and a journal of commands with their replies.
#![tactic(auto)]

mod appending;
pub mod candidates;
mod committing;
mod deciding;
mod finding;
mod following;
mod giving;
mod held;
pub mod playing;
mod remaking;
mod replying;
pub mod scheduler;
mod searching;
mod settling;
mod sharing;
pub mod snaps;

pub use candidates::{Candidate, Commit};
pub use playing::{play, play_client};
pub use scheduler::Core;
pub use searching::is_searched_for;
pub use snaps::Snap;
