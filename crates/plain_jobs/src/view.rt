//! The list of jobs as a view.
ghost use Rattle.std.specs.Prelude.{◌≡◌};
ghost use Rattle.resource_graph.specs.NamedGraph.{vertices_of};

use crate::jobs::{is_closed, is_touched, next_point};
use crate::takes::most_taken;
use flux_defs::{FreeView, Job, List, Steps, Window};
use resource_graph::Graph;
use std::sync::ledger::Ledger;

/// A graph, all of whose vertices are up, and a plain list of jobs. It keeps no totals.
#[derive(Clone, Copy)]
pub struct PlainJobs<'a> {
    graph: &'a Graph,
    jobs: &'a List<Job>,
}

impl<'a> PlainJobs<'a> {
    /// The view of the graph and these jobs.
    pub fn over(graph: &'a Graph, jobs: &'a List<Job>) -> PlainJobs<'a>
        ensures graph { result.graph.now ≡ graph.now }
        ensures jobs { result.jobs.now ≡ jobs.now }
    {
        PlainJobs { graph, jobs }
    }
}

impl<'a> FreeView for PlainJobs<'a> {
    ghost use Rattle.std.specs.Prelude.{◌≡◌};
    ghost use Rattle.flux_defs.specs.Present.{up_with};

    ghost graph = { λ view. (vertices_of view.graph.now) };

    ghost stands_for = { λ view present. present ≡ up_with view.jobs.now };

    ghost keeps = { λ view vertex kind. ⊥ };

    ghost cost = { λ _. 1 };

    fn is_bare(&self) -> bool {
        self.jobs.is_empty()
    }

    fn closed_over<L: Ledger>(&self, vertex: u32, window: Window, steps: &mut Steps<L>) -> bool {
        steps.tick();
        is_closed(self.graph, self.jobs.items(), window, vertex)
    }

    /// Until the window's start, where it is so at a moment of the window: no later one is looked for.
    fn closed_until<L: Ledger>(
        &self,
        vertex: u32,
        window: Window,
        steps: &mut Steps<L>,
    ) -> Option<u64> {
        if self.closed_over(vertex, window, steps) {
            return Some(window.from);
        }
        None
    }

    fn touched_over<L: Ledger>(&self, vertex: u32, window: Window, steps: &mut Steps<L>) -> bool {
        steps.tick();
        is_touched(self.graph, self.jobs.items(), window, vertex)
    }

    /// Until the window's start, where it is so at a moment of the window: no later one is looked for.
    fn touched_until<L: Ledger>(
        &self,
        vertex: u32,
        window: Window,
        steps: &mut Steps<L>,
    ) -> Option<u64> {
        if self.touched_over(vertex, window, steps) {
            return Some(window.from);
        }
        None
    }

    fn free_over<L: Ledger>(&self, vertex: u32, window: Window, steps: &mut Steps<L>) -> u64 {
        steps.tick();
        let vertices = self.graph.vertices().items();
        let jobs = self.jobs.items();
        if is_closed(self.graph, jobs, window, vertex) {
            return 0;
        }
        let it = vertices[vertex as usize];
        if self.graph.is_pool(it.kind) {
            return it.size.saturating_sub(most_taken(jobs, window, vertex));
        }
        1
    }

    fn total_over<L: Ledger>(
        &self,
        _vertex: u32,
        _kind: u32,
        _window: Window,
        steps: &mut Steps<L>,
    ) -> Option<u64> {
        steps.tick();
        None
    }

    fn total_below<L: Ledger>(
        &self,
        _vertex: u32,
        _kind: u32,
        _amount: u64,
        _window: Window,
        steps: &mut Steps<L>,
    ) -> Option<u64> {
        steps.tick();
        None
    }

    fn total_until<L: Ledger>(
        &self,
        _vertex: u32,
        _kind: u32,
        _amount: u64,
        _window: Window,
        steps: &mut Steps<L>,
    ) -> Option<u64> {
        steps.tick();
        None
    }

    fn next_point<L: Ledger>(&self, after: u64, steps: &mut Steps<L>) -> Option<u64> {
        steps.tick();
        next_point(self.jobs.items(), after)
    }
}
