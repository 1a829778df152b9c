//! The book as what a search sees: its jobs, and every vertex up.

use crate::held::BookState;
use flux_defs::{FreeView, Steps, Window};
use planner_min_tree::MinTree;
use prune_filters::TotalsView;
use resource_graph::Graph;
use std::sync::ledger::Ledger;
use vertex_accounts::Accounts;

impl FreeView for BookState {
    ghost use Rattle.std.specs.Prelude.{◌+◌, ◌*◌};
    ghost use Rattle.std.specs.Arc.{arc_value};
    ghost use Rattle.std.specs.FinMap as map;
    ghost use Rattle.flux_defs.specs.Digits.{dig};
    ghost use Rattle.flux_defs.specs.Present.{IsUpWith};
    ghost use Rattle.book_state.specs.Books.{vertices_of, StandsFor, IsTotalKept, cost_of};

    ghost graph = { vertices_of };

    ghost stands_for = { λ book. IsUpWith (StandsFor book) };

    ghost keeps = { IsTotalKept };

    ghost cost = { cost_of };

    /// The jobs aren't kept, so it isn't known.
    fn is_bare(&self) -> bool {
        false
    }

    #[inline(always)]
    fn closed_over<L: Ledger>(&self, vertex: u32, window: Window, steps: &mut Steps<L>) -> bool {
        let graph = self.graph();
        let accounts = self.accounts();
        accounts.closed_over(graph, vertex, window, steps)
    }

    fn closed_until<L: Ledger>(
        &self,
        vertex: u32,
        window: Window,
        steps: &mut Steps<L>,
    ) -> Option<u64> {
        let graph = self.graph();
        let accounts = self.accounts();
        accounts.closed_until(graph, vertex, window, steps)
    }

    #[inline(always)]
    fn touched_over<L: Ledger>(&self, vertex: u32, window: Window, steps: &mut Steps<L>) -> bool {
        let graph = self.graph();
        let accounts = self.accounts();
        accounts.touched_over(graph, vertex, window, steps)
    }

    fn touched_until<L: Ledger>(
        &self,
        vertex: u32,
        window: Window,
        steps: &mut Steps<L>,
    ) -> Option<u64> {
        let graph = self.graph();
        let accounts = self.accounts();
        accounts.touched_until(graph, vertex, window, steps)
    }

    fn free_over<L: Ledger>(&self, vertex: u32, window: Window, steps: &mut Steps<L>) -> u64 {
        let graph = self.graph();
        let accounts = self.accounts();
        accounts.free_over(graph, vertex, window, steps)
    }

    fn total_over<L: Ledger>(
        &self,
        vertex: u32,
        kind: u32,
        window: Window,
        steps: &mut Steps<L>,
    ) -> Option<u64> {
        let Some(place) = self.place_kept(vertex, kind) else {
            steps.tick();
            return None;
        };
        let graph = self.graph();
        let accounts = self.accounts();
        Some(accounts.total_over(graph, vertex, place, window, steps))
    }

    fn total_below<L: Ledger>(
        &self,
        vertex: u32,
        kind: u32,
        amount: u64,
        window: Window,
        steps: &mut Steps<L>,
    ) -> Option<u64> {
        let Some(place) = self.place_kept(vertex, kind) else {
            steps.tick();
            return None;
        };
        let graph = self.graph();
        let accounts = self.accounts();
        accounts.total_below(graph, vertex, place, amount, window, steps)
    }

    fn total_until<L: Ledger>(
        &self,
        vertex: u32,
        kind: u32,
        amount: u64,
        window: Window,
        steps: &mut Steps<L>,
    ) -> Option<u64> {
        let Some(place) = self.place_kept(vertex, kind) else {
            steps.tick();
            return None;
        };
        let graph = self.graph();
        let accounts = self.accounts();
        accounts.total_until(graph, vertex, place, amount, window, steps)
    }

    fn next_point<L: Ledger>(&self, after: u64, steps: &mut Steps<L>) -> Option<u64> {
        let accounts = self.accounts();
        accounts.next_point(after, steps)
    }
}

impl TotalsView for BookState {
    fn next_ample<L: Ledger>(
        &self,
        after: u64,
        kind: u32,
        amount: u64,
        steps: &mut Steps<L>,
    ) -> Option<u64> {
        let graph = self.graph();
        let accounts = self.accounts();
        accounts.next_ample(graph, after, kind, amount, steps)
    }
}

impl BookState {
    ghost use Rattle.std.specs.Prelude.{◌≡◌, IfNone, IfSome};
    ghost use Rattle.resource_graph.specs.NamedGraph.{IsWhole};
    ghost use Rattle.vertex_accounts.specs.Books.{HasPlace};
    ghost use Rattle.book_state.specs.Books.{graph_of, accounts_of, IsBook, IsTotalKept};

    /// The graph.
    pub(crate) fn graph(&self) -> &Graph
        ensures value { result.now ≡ graph_of self.now }
        ensures valid { IsWhole result.now }
    {
        self.kept.filtered.graph()
    }

    /// The accounts. Some jobs are there for which the book stands.
    pub(crate) fn accounts(&self) -> &Accounts<MinTree>
        ensures value { result.now ≡ accounts_of self.now }
        ensures book { IsBook self.now }
    {
        &self.kept.accounts
    }

    /// The place of the type's units in the accounts, where the rules keep a total of it at the vertex. Where the
    /// accounts keep none of the type, the vertex isn't looked up.
    fn place_kept(&self, vertex: u32, kind: u32) -> Option<usize>
        ensures place { IfSome result (HasPlace (accounts_of self.now) kind) }
        ensures kept { IfSome result (λ _. IsTotalKept self.now vertex kind) }
        ensures unkept { IfNone result (IsTotalKept self.now vertex kind → ⊥) }
    {
        let Some(place) = self.accounts().place_of(kind) else {
            return None;
        };
        let Some(found) = self.graph().vertices().get(vertex as usize) else {
            return None;
        };
        if !self.kept.filtered.keeps(found.kind, kind) {
            return None;
        }
        Some(place)
    }
}
