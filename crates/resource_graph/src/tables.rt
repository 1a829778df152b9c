//! The tables of a graph, each made in one pass over its vertices.
ghost use Rattle.std.specs.Prelude.{◌≡◌, ◌<◌, ◌≤◌, ◌+◌, ◌*◌, length, IfOk};
ghost use Rattle.flux_defs.specs.declared.limits.TheConstants.{MOST_VERTICES, MOST_TYPES};
ghost use Rattle.resource_graph.specs.Preorder.{InPreorder, KnowsKinds, RanksApart};
ghost use Rattle.resource_graph.specs.Holds.{HasPasts, HasNodes, HasLists, HasRanked, HasPools, HasNested, AddsNested};
ghost use Rattle.resource_graph.specs.Holds.{CountsUp, AreEmpty, HasNodesTo};
ghost use Rattle.resource_graph.specs.Tables.{IsNodeOf};

use flux_defs::Vertex;
use std::alloc::{AllocError, Global};
use std::collections::BTreeMap;

/// By vertex, the number after the last vertex at or below it.
pub(crate) fn past_table(alloc: Global, vertices: &[Vertex]) -> Result<Vec<u32>, AllocError>
    requires order { InPreorder vertices.now }
    requires few { length vertices.now ≤ MOST_VERTICES }
    ensures { IfOk result (λ past. HasPasts vertices.now past.items) }
{
    let mut past = numbers_after(alloc, vertices.len())?;
    let mut left = vertices.len();
    while left > 0 {
        left -= 1;
        if let Some(parent) = vertices[left].parent {
            past[parent as usize] = past[parent as usize].max(past[left]);
        }
    }
    Ok(past)
}

/// The numbers from 1 on.
fn numbers_after(alloc: Global, count: usize) -> Result<Vec<u32>, AllocError>
    requires { count ≤ MOST_VERTICES }
    ensures { IfOk result (λ numbers. CountsUp numbers.items count) }
{
    let mut numbers = Vec::with_capacity(alloc, count)?;
    for number in 0..count {
        numbers.push(number as u32 + 1)?;
    }
    Ok(numbers)
}

/// By vertex, the node that it is or lies below.
pub(crate) fn node_table(alloc: Global, vertices: &[Vertex]) -> Result<Vec<Option<u32>>, AllocError>
    requires order { InPreorder vertices.now }
    requires few { length vertices.now ≤ MOST_VERTICES }
    ensures { IfOk result (λ nodes. HasNodes vertices.now nodes.items) }
{
    let mut nodes = Vec::with_capacity(alloc, vertices.len())?;
    for v in 0..vertices.len() {
        let node = node_at(vertices, nodes.as_slice(), v);
        nodes.push(node)?;
    }
    Ok(nodes)
}

/// The node that the vertex is or lies below, from those of the vertices before it.
fn node_at(vertices: &[Vertex], nodes: &[Option<u32>], v: usize) -> Option<u32>
    requires order { InPreorder vertices.now }
    requires few { length vertices.now ≤ MOST_VERTICES }
    requires within { v < length vertices.now }
    requires before { HasNodesTo vertices.now v nodes.now }
    ensures { IsNodeOf vertices.now v result }
{
    if vertices[v].rank.is_some() {
        return Some(v as u32);
    }
    match vertices[v].parent {
        Some(parent) => nodes[parent as usize],
        None => None,
    }
}

/// By type, its vertices.
pub(crate) fn list_table(
    alloc: Global,
    vertices: &[Vertex],
    kinds: usize,
) -> Result<Vec<Vec<u32>>, AllocError>
    requires few { length vertices.now ≤ MOST_VERTICES }
    requires known { KnowsKinds vertices.now kinds }
    ensures { IfOk result (λ lists. HasLists vertices.now kinds lists.items) }
{
    let mut lists = empty_lists(alloc, kinds)?;
    for v in 0..vertices.len() {
        let kind = vertices[v].kind as usize;
        lists[kind].push(v as u32)?;
    }
    Ok(lists)
}

/// So many empty lists.
fn empty_lists(alloc: Global, count: usize) -> Result<Vec<Vec<u32>>, AllocError>
    ensures { IfOk result (λ lists. AreEmpty lists.items count) }
{
    let mut lists = Vec::with_capacity(alloc, count)?;
    while lists.len() < count {
        lists.push(Vec::new(alloc))?;
    }
    Ok(lists)
}

/// By rank, its node.
pub(crate) fn rank_table(
    alloc: Global,
    vertices: &[Vertex],
) -> Result<BTreeMap<u32, u32>, AllocError>
    requires few { length vertices.now ≤ MOST_VERTICES }
    requires apart { RanksApart vertices.now }
    ensures { IfOk result (λ ranked. HasRanked vertices.now ranked) }
{
    let mut ranked = BTreeMap::new(alloc);
    for v in 0..vertices.len() {
        if let Some(rank) = vertices[v].rank {
            ranked.insert(rank, v as u32)?;
        }
    }
    Ok(ranked)
}

/// By type, whether it is a pool type.
pub fn pool_table(alloc: Global, vertices: &[Vertex], kinds: usize) -> Result<Vec<bool>, AllocError>
    requires known { KnowsKinds vertices.now kinds }
    ensures pools { IfOk result (λ pools. HasPools vertices.now pools.items) }
    ensures whole { IfOk result (λ pools. length pools.items ≡ kinds) }
{
    let mut pools = vec![in alloc; false; kinds]?;
    for vertex in vertices {
        if vertex.size != 1 {
            pools[vertex.kind as usize] = true;
        }
    }
    Ok(pools)
}

/// By two types, row by row, whether the first contains the second.
pub(crate) fn nested_table(
    alloc: Global,
    vertices: &[Vertex],
    kinds: usize,
) -> Result<Vec<bool>, AllocError>
    requires order { InPreorder vertices.now }
    requires few_kinds { kinds ≤ MOST_TYPES }
    requires known { KnowsKinds vertices.now kinds }
    ensures { IfOk result (λ nested. HasNested vertices.now kinds nested.items) }
{
    let mut nested = vec![in alloc; false; kinds * kinds]?;
    for v in 0..vertices.len() {
        mark_above(vertices, kinds, v, &mut nested);
    }
    Ok(nested)
}

/// Marks each type above the vertex as one that contains its type.
fn mark_above(vertices: &[Vertex], kinds: usize, v: usize, nested: &mut Vec<bool>)
    requires order { InPreorder vertices.now }
    requires few_kinds { kinds ≤ MOST_TYPES }
    requires known { KnowsKinds vertices.now kinds }
    requires within { v < length vertices.now }
    requires whole { length nested.old.items ≡ kinds * kinds }
    ensures { AddsNested vertices.now kinds v nested.old.items nested.new.items }
{
    let lower = vertices[v].kind as usize;
    let mut above = vertices[v].parent;
    while let Some(u) = above {
        let upper = vertices[u as usize].kind as usize;
        let cell = cell_of(kinds, upper, lower);
        nested[cell] = true;
        above = vertices[u as usize].parent;
    }
}

/// The index of a pair of types in a table with a row for each upper one.
fn cell_of(kinds: usize, upper: usize, lower: usize) -> usize
    requires few { kinds ≤ MOST_TYPES }
    requires upper_in { upper < kinds }
    requires lower_in { lower < kinds }
    ensures index { result ≡ upper * kinds + lower }
    ensures within { result < kinds * kinds }
{
    upper * kinds + lower
}
