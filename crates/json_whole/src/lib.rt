//! JSON texts (RFC 8259) whose numbers are whole: every number that 64 bits don't hold exactly is read as a list of
//! its text, so that no floating-point number is ever made.
#![tactic(auto)]

mod fields;
mod looking;
mod parsing;
mod parts;
mod passing;
mod plain_form;
mod runs;
mod values;

pub use fields::{FieldFault, need_text, need_u64};
pub use looking::{
    Object, as_array, as_bool, as_number, as_object, as_str, get, in_order, is_null,
};
pub use parts::Wanted;
pub use plain_form::plain;
pub use values::{PlainText, Room, ValueFault, read_bytes, read_bytes_part, read_value};
