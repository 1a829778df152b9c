//! What a scheduler holds.

use book_state::{BookState, Frame};
use flux_defs::Entry;
use resource_graph::Graph;
use snapshot_store::Pages;
use std::alloc::Global;
use std::sync::Arc;

/// What never changes: where memory comes from, the graph, the horizon in seconds, and how many claims all accepted
/// jobs may have.
#[derive(Drop)]
pub(crate) struct Site {
    pub alloc: Global,
    pub graph: Arc<Graph, Global>,
    pub horizon: u64,
    pub claim_limit: u64,
}

/// What grows: the journal, the book of the jobs that it leaves, and how many claims the accepted jobs had.
#[derive(Drop)]
pub(crate) struct Kept {
    pub journal: Pages<Entry>,
    pub book: BookState,
    pub claim_count: u64,
}

/// What is left of it without the book: all that a book is made of again.
#[derive(Drop)]
pub(crate) struct Remains {
    pub frame: Frame,
    pub journal: Pages<Entry>,
    pub moment: u64,
    pub claim_count: u64,
}

/// What a scheduler keeps. The book is changed in place, so where memory runs out meanwhile it is lost, and the next
/// call makes it again of the journal.
#[derive(Drop)]
pub(crate) enum Keeping {
    Whole(Kept),
    Remains(Remains),
    /// Nothing, while a call has taken out what was kept.
    Nothing,
}
