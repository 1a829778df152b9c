//! The earliest start of an ask, over what a view has free.
#![tactic(auto)]

ghost use Rattle.earliest_search.specs.Starts.{StartsWaitForEnds};

mod searching;
mod windows;

pub use searching::{Found, earliest};
pub use windows::{counts, window_at};

/// A law: starts wait for ends, so only the present moment and later ends of jobs need be tried.
pub fn starts_wait_for_ends()
    ensures { StartsWaitForEnds }
{}
