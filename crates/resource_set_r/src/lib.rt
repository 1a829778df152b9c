//! The resource set R (RFC 20, version 1), written and read.
#![tactic(auto)]

pub mod faults;
mod fields;
mod given;
mod hosts;
pub mod laws;
mod ranks;
pub mod reading;
mod rows;
mod sets;
pub mod sets_read;
pub mod writing;

pub use faults::RFault;
pub use hosts::id_count;
pub use laws::{
    a_text_has_one_set, ids_are_those_of_the_claims, jobs_on_graphs_of_files_can_be_read,
    ranks_are_those_of_the_claims, written_sets_are_read_back,
};
pub use reading::{read_r, read_r_value};
pub use sets_read::{RRow, RSet};
pub use writing::write_r;
