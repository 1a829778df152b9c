//! Planners: what spans of time leave free of a total.
//!
//! A planner has a total, a horizon in whole seconds, and stands for a list of spans, each a quantity that is taken
//! over a window. It need not keep the list. `with_span` and `without_span` give a new planner beside the old one;
//! `settle`, `add_span` and `remove_span` change one, in place where no other shares it.
#![tactic(auto)]

mod planners;
mod renewing;
mod span_list;
mod spans;

pub use planners::Planner;
pub use renewing::{renew_with, renew_without};
pub use span_list::SpanList;
pub use spans::Span;
