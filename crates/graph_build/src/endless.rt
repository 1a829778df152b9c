//! The first vertex whose chain of parents never ends, or ends too late.
ghost use Rattle.std.specs.Prelude.{◌≡◌, ◌<◌, ◌≤◌, ℕ, suc, IfOk, IfSome, IsTrue, Some, is_some, length, position};
ghost use Rattle.flux_defs.specs.declared.limits.TheConstants.{MOST_VERTICES};
ghost use Rattle.flux_defs.specs.Graph.{chain, parent_of};
ghost use Rattle.graph_build.specs.Faults.{NeverEnds, IsDeep};
ghost use Rattle.resource_graph.specs.Chains.{KnowsParents};
ghost use Rattle.resource_graph.specs.Preorder.{plain};
ghost use Rattle.resource_graph.specs.Finds.{IsFirstOf};

use crate::climbs::climbs;
use flux_defs::{MOST_LEVELS, Vertex};
use std::alloc::{AllocError, Global};

/// The first vertex whose chain of parents is longer than the graph.
pub(crate) fn first_endless(alloc: Global, vertices: &[Vertex]) -> Result<Option<usize>, AllocError>
    requires few { length vertices.now ≤ MOST_VERTICES }
    requires known { KnowsParents vertices.now }
    ensures first { IfOk result (IsFirstOf (NeverEnds (plain vertices.now))) }
    ensures within { IfOk result (λ found. IfSome found (λ v. v < length vertices.now)) }
{
    if parents_stand_first(vertices) {
        return Ok(None);
    }
    let reached = climbs(alloc, vertices, vertices.len())?;
    let found = first_reached(reached.as_slice());
    Ok(found)
}

/// Whether each parent stands before its children. No chain of such parents is endless.
fn parents_stand_first(vertices: &[Vertex]) -> bool
    ensures { IsTrue result → (v p : ℕ) → parent_of vertices.now v ≡ Some p → p < v }
{
    for v in 0..vertices.len() {
        if !is_behind(vertices[v].parent, v) {
            return false;
        }
    }
    true
}

/// Whether a vertex stands behind its parent, where it has one.
fn is_behind(parent: Option<u32>, v: usize) -> bool
    ensures { IsTrue result → (p : ℕ) → parent ≡ Some p → p < v }
{
    match parent {
        Some(p) => (p as usize) < v,
        None => true,
    }
}

/// The first vertex with more than `MOST_LEVELS` vertices from the root to it.
pub(crate) fn first_deep(alloc: Global, vertices: &[Vertex]) -> Result<Option<usize>, AllocError>
    requires few { length vertices.now ≤ MOST_VERTICES }
    requires known { KnowsParents vertices.now }
    requires ends { (v : ℕ) → NeverEnds (plain vertices.now) v → ⊥ }
    ensures first { IfOk result (IsFirstOf (IsDeep (plain vertices.now))) }
    ensures within { IfOk result (λ found. IfSome found (λ v. v < length vertices.now)) }
{
    let reached = climbs(alloc, vertices, MOST_LEVELS)?;
    let found = first_reached(reached.as_slice());
    Ok(found)
}

/// The first climb that came to a vertex.
fn first_reached(reached: &[Option<u32>]) -> Option<usize>
    ensures first { result ≡ position (λ o. is_some o) reached.now }
    ensures within { IfSome result (λ v. v < length reached.now) }
{
    reached.iter().position(|vertex| vertex.is_some())
}
