//! What a resource set says.
use flux_defs::List;
use idset_text::{Hosts, Range};

/// An element of `R_lite`: ranks, and the ids of their cores and of their gpus.
#[derive(Debug, Drop)]
pub struct RRow {
    pub ranks: List<Range>,
    pub cores: List<Range>,
    pub gpus: List<Range>,
}

/// A resource set: its rows, its hosts, and the seconds from `start` on and before `end`.
#[derive(Debug, Drop)]
pub struct RSet {
    pub rows: List<RRow>,
    pub hosts: List<Hosts>,
    pub start: u64,
    pub end: u64,
}
