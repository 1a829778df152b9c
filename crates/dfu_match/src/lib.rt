//! The matcher: the lowest-first claims of an ask over what a view has free. It goes down the graph depth first, need
//! by need, and looks at each vertex of a need once, or twice where it counts copies before it writes them. It enters
//! no subtree whose top is short for the need: where a kept total is below what one of the need demands.
#![tactic(auto)]

mod asking;
mod bars;
mod bounding;
mod counting;
mod demanding;
mod holding;
mod knowing;
mod leaving;
mod matching;
mod refuting;
mod scopes;
mod search;
mod singles;
mod spreads;
mod topmost;
mod walking;
mod wanting;
mod writing;

pub use knowing::Known;
pub use matching::{Matched, Matcher, match_at, some_fit};
