//! The accounts of no jobs.
ghost use Rattle.std.specs.Prelude.{◌≡◌, ℕ, ◌<◌, ◌≤◌, List, [], length, Some, slice_get, IfOk};
ghost use Rattle.planner_points.specs.declared.spans.Span.{Span};
ghost use Rattle.prune_filters.specs.Filters.{IsCounted};
ghost use Rattle.vertex_planners.specs.Lists.{items_of, AreWide};
ghost use Rattle.vertex_accounts.specs.Quantities.{KnowCapacities};
ghost use Rattle.vertex_accounts.specs.Counts.{AreNew};
ghost use Rattle.vertex_accounts.specs.Books.{AreAccounts, HasTotals, types_of};

use crate::books::Accounts;
use crate::counted::{Counted, totals_at};
use crate::quantities::Quantity;
use flux_defs::Steps;
use planner_points::Planner;
use prune_filters::Rules;
use resource_graph::Graph;
use std::alloc::{AllocError, Global};
use std::sync::Arc;
use std::sync::ledger::Ledger;
use vertex_planners::VertexPlanners;

/// At each vertex a planner without spans for each quantity.
fn planners_new<P: Planner + Drop, L: Ledger>(
    alloc: Global,
    graph: &Graph,
    quantities: &[Quantity],
    horizon: u64,
    steps: &mut Steps<L>,
) -> Result<VertexPlanners<P>, AllocError>
    requires { KnowCapacities graph.now.resources.vertices quantities.now }
    ensures len { IfOk result (λ all. length (items_of all) ≡ length graph.now.resources.vertices) }
    ensures places { IfOk result (λ all. AreWide (length quantities.now) (items_of all)) }
    ensures planners { IfOk result
        (λ all. AreNew P.total_of P.stands_for graph.now.resources.vertices quantities.now (items_of all)) }
{
    let mut planners = VertexPlanners::empty();
    for vertex in 0..graph.len() {
        let totals = totals_at(alloc, graph, quantities, vertex)?;
        planners.push(alloc, totals.as_slice(), horizon, steps)?;
    }
    Ok(planners)
}

impl<P: Planner + Drop> Accounts<P> {
    /// The accounts of no jobs. Totals are kept of the types that the rules name.
    pub fn new<L: Ledger>(
        alloc: Global,
        graph: &Graph,
        rules: &Rules,
        horizon: u64,
        steps: &mut Steps<L>,
    ) -> Result<Accounts<P>, AllocError>
        ensures accounts { IfOk result
            (λ book. AreAccounts P.total_of P.stands_for graph.now.resources.vertices [] book) }
        ensures kinds { IfOk result (λ book. (kind : ℕ) (name : List ℕ) →
            slice_get graph.now.resources.kinds kind ≡ Some name → IsCounted rules.now name → HasTotals book kind) }
        ensures types { IfOk result (λ book. types_of book ≤ length rules.now) }
    {
        let counted = Counted::new(alloc, graph, rules)?;
        let planners = planners_new(alloc, graph, counted.quantities.items(), horizon, steps)?;
        let times = P::empty(alloc, 0, horizon)?;
        Ok(Accounts {
            counted: Arc::new(alloc, counted)?,
            planners,
            times,
            count: 0,
            widest: 0,
            narrowest: u32::MAX,
        })
    }
}
