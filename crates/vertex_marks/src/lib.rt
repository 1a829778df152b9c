//! Which vertices of a graph are down, with old versions that stay.
#![tactic(auto)]

mod changing;
mod marks;

pub use marks::{Mark, Marks};
