//! Climbs of many steps from all vertices at once.
ghost use Rattle.std.specs.Prelude.{◌≡◌, ℕ, ◌+◌, ◌<◌, ◌≤◌, List, cond, length, slice_index_or, option_and_then, IfOk};
ghost use Rattle.std.specs.Prelude.{Some, None};
ghost use Rattle.flux_defs.specs.declared.limits.TheConstants.{MOST_VERTICES};
ghost use Rattle.flux_defs.specs.declared.vertices.Vertex.{Vertex};
ghost use Rattle.resource_graph.specs.Chains.{KnowsParents};
ghost use Rattle.graph_build.specs.Checks.{HasClimbs, LeadsWithin};

use flux_defs::Vertex;
use std::alloc::{AllocError, Global};

/// By vertex, the one that is so many steps up: the jumps of 1, 2, 4 and so on that make up the number.
pub(crate) fn climbs(
    alloc: Global,
    vertices: &[Vertex],
    steps: usize,
) -> Result<Vec<Option<u32>>, AllocError>
    requires few { length vertices.now ≤ MOST_VERTICES }
    requires known { KnowsParents vertices.now }
    ensures { IfOk result (λ climbs. HasClimbs vertices.now steps climbs.items) }
{
    let mut reached = starts(alloc, vertices)?;
    let mut jumps = parents(alloc, vertices)?;
    let mut left = steps;
    while left > 0 {
        reached = advanced(alloc, reached, jumps.as_slice(), left % 2 == 1)?;
        jumps = followed(alloc, jumps.as_slice(), jumps.as_slice())?;
        left /= 2;
    }
    Ok(reached)
}

/// Each vertex itself.
fn starts(alloc: Global, vertices: &[Vertex]) -> Result<Vec<Option<u32>>, AllocError>
    requires few { length vertices.now ≤ MOST_VERTICES }
    ensures { IfOk result (λ climbs. HasClimbs vertices.now 0 climbs.items) }
{
    let mut climbs = Vec::with_capacity(alloc, vertices.len())?;
    for v in 0..vertices.len() {
        climbs.push(Some(v as u32))?;
    }
    Ok(climbs)
}

/// The parent of each vertex.
fn parents(alloc: Global, vertices: &[Vertex]) -> Result<Vec<Option<u32>>, AllocError>
    ensures { IfOk result (λ climbs. HasClimbs vertices.now 1 climbs.items) }
{
    let mut climbs = Vec::with_capacity(alloc, vertices.len())?;
    for vertex in vertices {
        climbs.push(vertex.parent)?;
    }
    Ok(climbs)
}

/// The climbs that were reached, and where `odd` is true the jumps after them.
fn advanced(
    alloc: Global,
    reached: Vec<Option<u32>>,
    jumps: &[Option<u32>],
    odd: bool,
) -> Result<Vec<Option<u32>>, AllocError>
    requires { LeadsWithin reached.items (length jumps.now) }
    ensures { IfOk result (λ climbs. (vertices : List Vertex) (a b : ℕ) → HasClimbs vertices a reached.items →
        HasClimbs vertices b jumps.now → HasClimbs vertices (cond odd (a + b) a) climbs.items) }
{
    if !odd {
        return Ok(reached);
    }
    followed(alloc, reached.as_slice(), jumps)
}

/// The first climb and then the second one.
fn followed(
    alloc: Global,
    first: &[Option<u32>],
    second: &[Option<u32>],
) -> Result<Vec<Option<u32>>, AllocError>
    requires { LeadsWithin first.now (length second.now) }
    ensures { IfOk result (λ climbs. (vertices : List Vertex) (a b : ℕ) → HasClimbs vertices a first.now →
        HasClimbs vertices b second.now → HasClimbs vertices (a + b) climbs.items) }
{
    let mut climbs = Vec::with_capacity(alloc, first.len())?;
    for v in 0..first.len() {
        climbs.push(then(first[v], second))?;
    }
    Ok(climbs)
}

/// Where the second climb leads from what the first one reached.
fn then(reached: Option<u32>, second: &[Option<u32>]) -> Option<u32>
    requires { (u : ℕ) → reached ≡ Some u → u < length second.now }
    ensures { result ≡ option_and_then (λ u. slice_index_or second.now u None) reached }
{
    match reached {
        Some(v) => second[v as usize],
        None => None,
    }
}
