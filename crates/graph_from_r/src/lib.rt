//! A graph from a resource set R (RFC 20): what a job got becomes the site of the scheduler inside it.
#![tactic(auto)]

pub mod faults;
mod hosts;
mod ids;
pub mod laws;
pub mod names;
pub mod nodes;
mod places;
pub mod properties;
pub mod reading;
mod sizes;
mod vertices;

pub use faults::LoadFault;
pub use laws::a_resource_set_has_one_graph;
pub use reading::graph_of_r;
