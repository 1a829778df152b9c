//! Small forms that many crates share: names, decimal numbers, the parts of a text before and behind a byte, what is
//! added at the end of a list, and where a number stands in a rising one.
#![tactic(auto)]

mod cuts;
mod growing;
mod names;
mod numbers;
mod rising;

pub use cuts::cut_at;
pub use growing::{push, push_bytes, push_decimal};
pub use names::is_name;
pub use numbers::number_in;
pub use rising::index_of;
