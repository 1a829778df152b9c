//! One planner for each place of a fixed list: what spans that take of several totals at once leave of each.
#![tactic(auto)]

mod planners;

pub use planners::MultiPlanner;
