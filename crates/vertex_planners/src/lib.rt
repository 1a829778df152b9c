//! A planner for each place of each vertex of a graph, and what a job's claims amount to at each vertex.
#![tactic(auto)]

mod amounts;
mod groups;
mod items;
mod measures;
mod numbers;
mod planners;
mod rows;

pub use amounts::Amounts;
pub use items::Item;
pub use measures::{Measure, amounts_on, amounts_within, parent_in};
pub use planners::VertexPlanners;
pub use rows::Rows;
