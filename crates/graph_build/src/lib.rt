//! A resource graph from a list of vertices in any order: what is wrong with the list, or its graph.
#![tactic(auto)]

mod above;
mod arrange;
mod building;
mod checks;
mod climbs;
mod doubles;
mod endless;
mod finding;
mod laws;
mod links;
mod order;
mod own;
pub mod raw;
mod repeats;

pub use building::build;
pub use laws::{a_graph_is_built_from_itself, a_list_has_one_graph};
pub use raw::{GraphFault, RawVertex};
