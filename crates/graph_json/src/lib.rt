//! Graph files (JSON Graph Format), read and written.
#![tactic(auto)]

mod edges;
pub mod faults;
mod field_paths;
mod fields;
mod ids;
pub mod laws;
mod nodes;
mod raw_lists;
mod reading;
mod writing;

pub use faults::ReadFault;
pub use laws::{
    a_graph_text_has_one_graph, graphs_of_files_fit_files, written_graphs_are_read_back,
};
pub use reading::{graph_texts_have_no_fault, read_graph};
pub use writing::{write_graph, written_graphs_are_json};
