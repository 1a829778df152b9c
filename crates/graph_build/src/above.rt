//! What stands above a vertex that shouldn't, or doesn't and should.
ghost use Rattle.std.specs.Prelude.{◌≡◌, ◌<◌, ◌≤◌, ◌↔◌, ℕ, IsTrue, IfSome, IfOk, length};
ghost use Rattle.flux_defs.specs.declared.limits.TheConstants.{MOST_VERTICES, MOST_LEVELS};
ghost use Rattle.graph_build.specs.Faults.{IsNestedInKind, IsPoolWithChild, IsLoose};
ghost use Rattle.resource_graph.specs.Chains.{chain_of, KnowsParents, AllBelow};
ghost use Rattle.resource_graph.specs.Preorder.{plain, KnowsKinds};
ghost use Rattle.resource_graph.specs.Holds.{HasPools};
ghost use Rattle.graph_build.specs.Checks.{graph_in, IsHouse, HasHouses, HasChildren};
ghost use Rattle.resource_graph.specs.Finds.{IsFirstOf};

use crate::finding::first_where;
use crate::own::{is_device_at, is_node_at};
use flux_defs::{Text, Vertex};
use resource_graph::chains::chain_into;
use resource_graph::tables::pool_table;
use std::alloc::{AllocError, Global};

/// The first vertex below one of its own type.
pub(crate) fn first_nested(alloc: Global, vertices: &[Vertex]) -> Result<Option<usize>, AllocError>
    requires few { length vertices.now ≤ MOST_VERTICES }
    requires parents { KnowsParents vertices.now }
    requires short { (v : ℕ) → v < length vertices.now → length (chain_of vertices.now v) ≤ MOST_LEVELS }
    ensures first { IfOk result (IsFirstOf (IsNestedInKind (plain vertices.now))) }
    ensures within { IfOk result (λ found. IfSome found (λ v. v < length vertices.now)) }
{
    let mut chain = Vec::new(alloc);
    for v in 0..vertices.len() {
        chain_into(&mut chain, vertices, v as u32)?;
        if is_nested(vertices, chain.as_slice(), v) {
            return Ok(Some(v));
        }
    }
    Ok(None)
}

/// Whether a vertex of its chain other than itself is of its type.
fn is_nested(vertices: &[Vertex], chain: &[u32], v: usize) -> bool
    requires within { v < length vertices.now }
    requires chain { chain.now ≡ chain_of vertices.now v }
    requires below { AllBelow (length vertices.now) chain.now }
    ensures { IsTrue result ↔ IsNestedInKind (plain vertices.now) v }
{
    for above in chain {
        let u = *above as usize;
        if u == v {
            continue;
        }
        if vertices[u].kind == vertices[v].kind {
            return true;
        }
    }
    false
}

/// By vertex, a node above it.
pub(crate) fn house_table(
    alloc: Global,
    kinds: &[Text],
    vertices: &[Vertex],
) -> Result<Vec<Option<u32>>, AllocError>
    requires few { length vertices.now ≤ MOST_VERTICES }
    requires parents { KnowsParents vertices.now }
    requires short { (v : ℕ) → v < length vertices.now → length (chain_of vertices.now v) ≤ MOST_LEVELS }
    ensures { IfOk result (λ houses. HasHouses (graph_in kinds.now vertices.now) (length vertices.now) houses.items) }
{
    let mut houses = Vec::with_capacity(alloc, vertices.len())?;
    let mut chain = Vec::new(alloc);
    for v in 0..vertices.len() {
        chain_into(&mut chain, vertices, v as u32)?;
        let house = house_of(kinds, vertices, chain.as_slice(), v);
        houses.push(house)?;
    }
    Ok(houses)
}

/// A node of the vertex's chain other than itself.
fn house_of(kinds: &[Text], vertices: &[Vertex], chain: &[u32], v: usize) -> Option<u32>
    requires within { v < length vertices.now }
    requires chain { chain.now ≡ chain_of vertices.now v }
    requires below { AllBelow (length vertices.now) chain.now }
    ensures { IsHouse (graph_in kinds.now vertices.now) v result }
{
    for above in chain {
        let u = *above;
        if u as usize == v {
            continue;
        }
        if is_node_at(kinds, vertices, u as usize) {
            return Some(u);
        }
    }
    None
}

/// The first core or gpu with no node above.
pub(crate) fn first_loose(
    kinds: &[Text],
    vertices: &[Vertex],
    houses: &[Option<u32>],
) -> Option<usize>
    requires { HasHouses (graph_in kinds.now vertices.now) (length vertices.now) houses.now }
    ensures first { IsFirstOf (IsLoose (graph_in kinds.now vertices.now)) result }
    ensures within { IfSome result (λ v. v < length vertices.now) }
{
    first_where(0, vertices.len(), |v| is_loose(kinds, vertices, houses, v))
}

/// The first vertex of a pool type that has a child.
pub(crate) fn first_parent_pool(
    alloc: Global,
    kinds: &[Text],
    vertices: &[Vertex],
) -> Result<Option<usize>, AllocError>
    requires parents { KnowsParents vertices.now }
    requires known { KnowsKinds vertices.now (length kinds.now) }
    ensures first { IfOk result (IsFirstOf (IsPoolWithChild (graph_in kinds.now vertices.now))) }
    ensures within { IfOk result (λ found. IfSome found (λ v. v < length vertices.now)) }
{
    let pools = pool_table(alloc, vertices, kinds.len())?;
    let children = child_table(alloc, vertices)?;
    Ok(first_pool(vertices, pools.as_slice(), children.as_slice()))
}

/// Whether the vertex is a core or gpu with no node above.
fn is_loose(kinds: &[Text], vertices: &[Vertex], houses: &[Option<u32>], v: usize) -> bool
    requires within { v < length vertices.now }
    requires houses { HasHouses (graph_in kinds.now vertices.now) (length vertices.now) houses.now }
    ensures { IsTrue result ↔ IsLoose (graph_in kinds.now vertices.now) v }
{
    if houses[v].is_some() {
        return false;
    }
    is_device_at(kinds, vertices, v)
}

fn first_pool(vertices: &[Vertex], pools: &[bool], children: &[bool]) -> Option<usize>
    requires known { KnowsKinds vertices.now (length pools.now) }
    requires pools { HasPools vertices.now pools.now }
    requires children { HasChildren vertices.now (length vertices.now) children.now }
    ensures first { IsFirstOf (IsPoolWithChild (plain vertices.now)) result }
    ensures within { IfSome result (λ v. v < length vertices.now) }
{
    first_where(
        0,
        vertices.len(),
        |v| is_parent_pool(vertices, pools, children, v),
    )
}

/// Whether the vertex is of a pool type and has a child.
fn is_parent_pool(vertices: &[Vertex], pools: &[bool], children: &[bool], v: usize) -> bool
    requires within { v < length vertices.now }
    requires known { KnowsKinds vertices.now (length pools.now) }
    requires pools { HasPools vertices.now pools.now }
    requires children { HasChildren vertices.now (length vertices.now) children.now }
    ensures { IsTrue result ↔ IsPoolWithChild (plain vertices.now) v }
{
    if !children[v] {
        return false;
    }
    pools[vertices[v].kind as usize]
}

/// By vertex, whether it has a child.
fn child_table(alloc: Global, vertices: &[Vertex]) -> Result<Vec<bool>, AllocError>
    requires { KnowsParents vertices.now }
    ensures { IfOk result (λ children. HasChildren vertices.now (length vertices.now) children.items) }
{
    let mut children = vec![in alloc; false; vertices.len()]?;
    for v in 0..vertices.len() {
        if let Some(parent) = vertices[v].parent {
            children[parent as usize] = true;
        }
    }
    Ok(children)
}
