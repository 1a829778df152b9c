//! What programs begin with that play histories: a scheduler over a graph, the lines of an input, and why one of these
//! could not be made.
#![tactic(auto)]

mod scenes;
mod unmade;

pub use scenes::{Bounds, core_over, line_in, lines_in};
pub use unmade::Unmade;
