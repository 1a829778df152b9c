//! Spans of time.
use flux_defs::Window;

/// A quantity that is taken at each second of a window.
#[derive(Clone, Copy, Debug, PartialEq, Eq)]
pub struct Span {
    pub window: Window,
    pub quantity: u64,
}
