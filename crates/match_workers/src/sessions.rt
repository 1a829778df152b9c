//! A client at a desk.
use flux_defs::{Line, List};

/// A client's lines, its seat at a desk, how many of its lines are placed (`done`), and whether it stopped because no
/// memory was left (`stopped`). A line that is placed leaves its number and an invalid command without a text behind.
#[derive(Drop)]
pub struct Session<T> {
    pub client: u32,
    pub lines: List<Line>,
    pub seat: T,
    pub done: u64,
    pub stopped: bool,
}
