//! Whether claims that a search found are still free: what a commit asks of a candidate, whatever the size of the
//! graph.
#![tactic(auto)]

mod checks;

pub use checks::{is_available, still_free};
