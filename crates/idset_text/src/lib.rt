//! Texts that stand for ids and for hosts: idsets (RFC 22) and hostlists (RFC 29) in the scheduler's profile.
#![tactic(auto)]

mod faults;
mod hostlists;
mod idsets;
mod items;
mod numbers;

pub use faults::TextFault;
pub use hostlists::{
    Hosts, has_host, is_wide, number_of_host, parts, read_hostlist, write_hostlist,
};
pub use idsets::{Range, has_id, read_idset, write_idset};
pub use numbers::number;
