//! What never changes of a book.
ghost use Rattle.std.specs.Prelude.{◌≡◌, [], IfOk};
ghost use Rattle.std.specs.Arc.{arc_value};
ghost use Rattle.std.specs.FinMap as map;
ghost use Rattle.book_state.specs.Books.{graph_of, rules_of, horizon_of, moment_of, rows_of, StandsFor};
ghost use Rattle.book_state.specs.Frames.{graph_in, rules_in, horizon_in, IsFrameOf};

use crate::books::first_accounts;
use crate::filtered::FilteredGraph;
use crate::held::{BookState, Kept};
use job_table::JobTable;
use prune_filters::Rules;
use resource_graph::Graph;
use std::alloc::{AllocError, Global};
use std::sync::Arc;

/// What never changes of a book: the graph with the filter rules, and the horizon in seconds.
#[derive(Drop)]
pub struct Frame {
    filtered: Arc<FilteredGraph, Global>,
    horizon: u64,
}

impl Frame {
    /// The graph with these rules, and a horizon.
    pub(crate) fn of(
        alloc: Global,
        graph: Arc<Graph, Global>,
        rules: Rules,
        horizon: u64,
    ) -> Result<Frame, AllocError>
        ensures graph { IfOk result (λ frame. graph_in frame ≡ arc_value graph) }
        ensures rules { IfOk result (λ frame. rules_in frame ≡ rules) }
        ensures horizon { IfOk result (λ frame. horizon_in frame ≡ horizon) }
    {
        let filtered = FilteredGraph::of(alloc, graph, rules)?;
        Ok(Frame {
            filtered: Arc::new(alloc, filtered)?,
            horizon,
        })
    }

    /// The book without jobs, at moment 0.
    pub fn book(&self, alloc: Global) -> Result<BookState, AllocError>
        ensures graph { IfOk result (λ book. graph_of book ≡ graph_in self.now) }
        ensures rules { IfOk result (λ book. rules_of book ≡ rules_in self.now) }
        ensures horizon { IfOk result (λ book. horizon_of book ≡ horizon_in self.now) }
        ensures moment { IfOk result (λ book. moment_of book ≡ 0) }
        ensures rows { IfOk result (λ book. rows_of book ≡ map.empty) }
        ensures jobs { IfOk result (λ book. StandsFor book []) }
    {
        let filtered = Arc::try_clone(&self.filtered)?;
        let graph = self.filtered.graph();
        let accounts = first_accounts(alloc, graph, self.filtered.rules(), self.horizon)?;
        Ok(BookState {
            kept: Kept {
                filtered,
                horizon: self.horizon,
                moment: 0,
                accounts,
                table: JobTable::empty(),
            },
        })
    }
}

impl BookState {
    /// What never changes of the book.
    pub fn frame(&self) -> Result<Frame, AllocError>
        ensures { IfOk result (IsFrameOf self.now) }
    {
        Ok(Frame {
            filtered: Arc::try_clone(&self.kept.filtered)?,
            horizon: self.kept.horizon,
        })
    }

    /// What never changes of the book, which is given up. It takes no memory.
    pub fn into_frame(self) -> Frame
        ensures { IsFrameOf self result }
    {
        let BookState { kept } = self;
        let Kept {
            filtered,
            horizon,
            ..
        } = kept;
        Frame { filtered, horizon }
    }
}
