//! What is counted at a place.
ghost use Rattle.std.specs.Prelude.{◌≡◌, ℕ, ◌+◌, ◌*◌, ◌<◌, ◌≤◌, List, length, sum_by, IfOk};
ghost use Rattle.std.specs.List.{AllByRecursion};
ghost use Rattle.flux_defs.specs.Graph.{size_of};
ghost use Rattle.flux_defs.specs.Jobs.{vertex_of};
ghost use Rattle.vertex_planners.specs.Numbers.{amount_at, count_of, HasKeysBelow};
ghost use Rattle.vertex_accounts.specs.Quantities.{amount_in, total_in, KnowsCapacities};
ghost use Rattle.vertex_accounts.specs.Costs.{reach_of};

use crate::capacities::Capacities;
use crate::measures::{Each, Holds, Parts, Takes};
use flux_defs::Claim;
use resource_graph::Graph;
use std::alloc::{AllocError, Global};
use vertex_planners::{Amounts, amounts_on, amounts_within};

/// What is counted of each vertex.
#[derive(Drop)]
pub enum Quantity {
    /// Holds of the vertex itself.
    Holds,
    /// Claims on the vertex and below it, but for holds of the vertex itself; of the root these too.
    Claims,
    /// Units that are taken of the vertex.
    Takes,
    /// Units of one type that jobs have at the vertex and below it, but for holds of the vertex itself, which close it;
    /// of the root these too.
    Units(Capacities),
}

impl Quantity {
    /// What claims amount to, by vertices. A sum past the greatest number is answered as want of memory.
    pub(crate) fn amounts(
        &self,
        alloc: Global,
        graph: &Graph,
        claims: &[Claim],
    ) -> Result<Amounts, AllocError>
        requires { KnowsCapacities graph.now.resources.vertices self.now }
        ensures sums { IfOk result (λ amounts. (v : ℕ) →
            amount_at amounts v ≡ sum_by (amount_in graph.now.resources.vertices self.now v) claims.now) }
        ensures keys { IfOk result
            (λ amounts. AllByRecursion (λ c. vertex_of c < length graph.now.resources.vertices) claims.now →
            HasKeysBelow (length graph.now.resources.vertices) amounts) }
        ensures few { IfOk result
            (λ amounts. AllByRecursion (λ c. vertex_of c < length graph.now.resources.vertices) claims.now →
            count_of amounts ≤ reach_of self.now * length claims.now) }
    {
        match self {
            Quantity::Holds => return Ok(amounts_on(alloc, &Holds, claims)?),
            Quantity::Takes => return Ok(amounts_on(alloc, &Takes, claims)?),
            Quantity::Claims => return amounts_within(alloc, graph, &Each, claims),
            Quantity::Units(capacities) => {
                let parts = Parts { graph, capacities };
                return amounts_within(alloc, graph, &parts, claims);
            }
        }
    }

    /// All that there is of it at a vertex: the greatest number of holds and of claims, and else the units.
    pub(crate) fn total(&self, graph: &Graph, vertex: u32) -> u64
        requires { KnowsCapacities graph.now.resources.vertices self.now }
        ensures { result ≡ total_in graph.now.resources.vertices self.now vertex }
    {
        match self {
            Quantity::Holds => return u64::MAX,
            Quantity::Claims => return u64::MAX,
            Quantity::Takes => return size_in(graph, vertex),
            Quantity::Units(capacities) => return capacities.at(graph, vertex),
        }
    }
}

/// The vertex's units; past the last vertex none.
fn size_in(graph: &Graph, vertex: u32) -> u64
    ensures { result ≡ size_of graph.now.resources.vertices vertex }
{
    match graph.vertices().get(vertex as usize) {
        Some(found) => return found.size,
        None => return 0,
    }
}
