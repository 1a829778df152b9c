//! Fields of JSON objects: what stands at a key, which texts are names, and where faults stand.
#![tactic(auto)]

mod faults;
pub mod misfits;
mod names;
mod paths;
mod values;

pub use faults::field_word;
pub use misfits::{Misfit, at_field};
pub use names::{name_field, name_or, name_value};
pub use paths::{index_path, joined_path, member_path};
pub use values::{
    given, list_field, list_value, object_field, object_or_none, object_value, some_field,
    some_value,
};
