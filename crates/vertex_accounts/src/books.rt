//! The accounts of a graph.
use crate::counted::Counted;
use planner_points::Planner;
use std::alloc::Global;
use std::sync::Arc;
use vertex_planners::VertexPlanners;

/// What jobs have of a graph over time: at each vertex a planner of holds, of claims and of takes side by side, and of
/// the units of each type of which totals are kept; the times of the jobs, how many claims they have, and how wide the
/// vertices are at most that jobs hold, and at least at which their claims count. A call that adds or removes a job
/// makes the new accounts of the old ones, in place where no others share them; `share` keeps the old ones.
#[derive(Drop)]
pub struct Accounts<P: Planner + Drop> {
    pub(crate) counted: Arc<Counted, Global>,
    pub(crate) planners: VertexPlanners<P>,
    pub(crate) times: P,
    pub(crate) count: u64,
    /// No job holds a vertex with more than so many vertices at or below it.
    pub(crate) widest: u32,
    /// No claim of a job counts at a vertex with fewer than so many vertices at or below it.
    pub(crate) narrowest: u32,
}

impl<P: Planner + Drop> Accounts<P> {
    ghost use Rattle.std.specs.Prelude.{◌≡◌, IfSome, IsSome};
    ghost use Rattle.vertex_accounts.specs.Books.{counted_of, HasPlace, HasTotals};

    /// What is counted at each place.
    pub(crate) fn counted(&self) -> &Counted
        ensures { result.now ≡ counted_of self.now }
    {
        &self.counted
    }

    /// The place of the type's units, where totals of the type are kept.
    pub fn place_of(&self, kind: u32) -> Option<usize>
        ensures place { IfSome result (HasPlace self.now kind) }
        ensures kept { HasTotals self.now kind → IsSome result }
    {
        self.counted().place_of(kind)
    }
}
