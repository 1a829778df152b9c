//! What one of a need demands, kind by kind.
ghost use Rattle.std.specs.Prelude.{◌≡◌, ℕ, ◌+◌, ◌≤◌, ◌⊎◌, length, List, IfOk, OnOk, Contains, IsTrue};
ghost use Rattle.flux_defs.specs.declared.vertices.Vertex.{Vertex};
ghost use Rattle.prune_filters.specs.Demands.{one_if, is_node_kind, demand, needs_demand, capped};
ghost use Rattle.prune_filters.specs.Shorts.{AreDemandsOf};
ghost use Rattle.dfu_match.specs.Tables.{IsNodesKind, all_of, needs_all, AreDemandsOfAll};
ghost use Rattle.resource_graph.specs.NamedGraph.{vertices_of};

use flux_defs::{List, Need};
use prune_filters::Demand;
use resource_graph::Graph;
use std::alloc::{AllocError, Global};

/// A graph, and the kind of its nodes, if it has any.
#[derive(Drop)]
pub(crate) struct Kinds<'a> {
    pub(crate) graph: &'a Graph,
    pub(crate) nodes: Option<u32>,
    ghost told: { IsNodesKind (vertices_of graph.now) nodes },
}

/// How much of the kind so many of the need demand, at most the greatest number.
#[cycle(demanding)]
pub(crate) fn demand_of(kinds: &Kinds, kind: u32, times: u64, need: &Need) -> u64
    ensures { result ≡ capped (demand (vertices_of kinds.now.graph.now) kind times need.now) }
{
    match need {
        Need::Vert {
            kind: own,
            needs,
            ..
        } => times.saturating_mul(one_if(*own == kind).saturating_add(demand_of_all(
            kinds, kind, needs,
        ))),
        Need::Pool { kind: own, .. } => times.saturating_mul(one_if(*own == kind)),
        Need::Spread { needs, .. } => {
            let copies = times.saturating_mul(demand_of_all(kinds, kind, needs));
            one_if(is_nodes(kinds, kind)).saturating_add(copies)
        }
    }
}

/// The same of each need of a list, its amount.
#[cycle(demanding)]
fn demand_of_all(kinds: &Kinds, kind: u32, needs: &List<Need>) -> u64
    ensures { result ≡ capped (needs_demand (vertices_of kinds.now.graph.now) kind needs.now) }
{
    let mut total: u64 = 0;
    for need in needs.items() {
        total = total.saturating_add(demand_of(kinds, kind, need.amount(), need));
    }
    total
}

/// 1 where this holds, else 0.
fn one_if(holds: bool) -> u64
    ensures { result ≡ one_if holds }
{
    if holds { 1 } else { 0 }
}

/// Whether nodes are of this kind.
fn is_nodes(kinds: &Kinds, kind: u32) -> bool
    ensures { result ≡ is_node_kind (vertices_of kinds.now.graph.now) kind }
{
    kinds.nodes == Some(kind)
}

/// Adds the kinds that the need demands, each once.
#[cycle(gathering)]
fn gather(kinds: &Kinds, need: &Need, found: &mut Vec<u32>) -> Result<(), AllocError>
    ensures all { OnOk result ((kind : ℕ) → Contains found.old.items kind
        ⊎ (1 ≤ demand (vertices_of kinds.now.graph.now) kind 1 need.now) →
        Contains found.new.items kind) }
    ensures few { OnOk result (length found.new.items ≤ length found.old.items + length (all_of need.now)) }
{
    match need {
        Need::Vert { kind, needs, .. } => {
            note(found, *kind)?;
            gather_all(kinds, needs, found)?;
            Ok(())
        }
        Need::Pool { kind, .. } => {
            note(found, *kind)?;
            Ok(())
        }
        Need::Spread { needs, .. } => {
            note_nodes(kinds, found)?;
            gather_all(kinds, needs, found)?;
            Ok(())
        }
    }
}

/// The same of each need of a list.
#[cycle(gathering)]
fn gather_all(kinds: &Kinds, needs: &List<Need>, found: &mut Vec<u32>) -> Result<(), AllocError>
    ensures all { OnOk result ((kind : ℕ) → Contains found.old.items kind
        ⊎ (1 ≤ needs_demand (vertices_of kinds.now.graph.now) kind needs.now) →
        Contains found.new.items kind) }
    ensures few { OnOk result (length found.new.items ≤ length found.old.items + length (needs_all needs.now)) }
{
    for need in needs.items() {
        gather(kinds, need, found)?;
    }
    Ok(())
}

/// Adds the kind, unless it is there.
fn note(found: &mut Vec<u32>, kind: u32) -> Result<(), AllocError>
    ensures there { OnOk result (Contains found.new.items kind) }
    ensures kept { OnOk result ((k : ℕ) → Contains found.old.items k → Contains found.new.items k) }
    ensures few { OnOk result (length found.new.items ≤ length found.old.items + 1) }
{
    if found.contains(&kind) {
        return Ok(());
    }
    found.push(kind)?;
    Ok(())
}

/// Adds the kind of nodes, if there is one, unless it is there.
fn note_nodes(kinds: &Kinds, found: &mut Vec<u32>) -> Result<(), AllocError>
    ensures there { OnOk result ((k : ℕ) → IsTrue (is_node_kind (vertices_of kinds.now.graph.now) k) →
        Contains found.new.items k) }
    ensures kept { OnOk result ((k : ℕ) → Contains found.old.items k → Contains found.new.items k) }
    ensures few { OnOk result (length found.new.items ≤ length found.old.items + 1) }
{
    match kinds.nodes {
        None => Ok(()),
        Some(kind) => note(found, kind),
    }
}

/// What one of the need demands, each kind once.
pub(crate) fn demands_of(
    alloc: Global,
    kinds: &Kinds,
    need: &Need,
) -> Result<List<Demand>, AllocError>
    ensures demands { IfOk result (AreDemandsOf (vertices_of kinds.now.graph.now) need.now) }
    ensures few { IfOk result (λ demands. length demands ≤ length (all_of need.now)) }
{
    let mut found = Vec::new(alloc);
    gather(kinds, need, &mut found)?;
    let mut demands = Vec::with_capacity(alloc, found.len())?;
    for kind in found.as_slice() {
        demands.push(Demand {
            kind: *kind,
            amount: demand_of(kinds, *kind, 1, need),
        })?;
    }
    Ok(List::of_vec(demands))
}

/// What the needs demand in full, each its amount, each kind once.
pub(crate) fn demands_in_full(
    alloc: Global,
    kinds: &Kinds,
    needs: &List<Need>,
) -> Result<List<Demand>, AllocError>
    ensures demands { IfOk result (AreDemandsOfAll (vertices_of kinds.now.graph.now) needs.now) }
    ensures few { IfOk result (λ demands. length demands ≤ length (needs_all needs.now)) }
{
    let mut found = Vec::new(alloc);
    gather_all(kinds, needs, &mut found)?;
    let mut demands = Vec::with_capacity(alloc, found.len())?;
    for kind in found.as_slice() {
        demands.push(Demand {
            kind: *kind,
            amount: demand_of_all(kinds, *kind, needs),
        })?;
    }
    Ok(List::of_vec(demands))
}
