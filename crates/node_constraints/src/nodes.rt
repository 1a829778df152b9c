//! The nodes of a graph and what constraints ask of them.
ghost use Rattle.std.specs.Prelude.{◌≡◌, ◌↔◌, IsTrue, Some, is_some, length, slice_get, IfOk, OnOk};
ghost use Rattle.std.specs.List.{filter, range_with_len};
ghost use Rattle.node_constraints.specs.Truth.{facts_of};
ghost use Rattle.node_constraints.specs.Narrowing.{AreOthers};

use flux_defs::Text;
use resource_graph::Graph;
use std::alloc::{AllocError, Global};

/// The properties of a vertex; past the last one none.
pub(crate) fn properties_of(graph: &Graph, vertex: u32) -> &[Text]
    ensures { result.now ≡ (facts_of graph.now vertex).properties }
{
    match graph.vertices().get(vertex as usize) {
        Some(_) => graph.properties_of(vertex).items(),
        None => &[],
    }
}

/// The nodes of a graph, in the order of their numbers.
pub(crate) fn nodes_of(alloc: Global, graph: &Graph) -> Result<Vec<u32>, AllocError>
    ensures { IfOk result (λ nodes. nodes.items
        ≡ filter (λ v. is_some (facts_of graph.now v).rank) (range_with_len 0 (length graph.now.resources.vertices))) }
{
    let mut nodes = Vec::new(alloc);
    'vertices: for vertex in 0..graph.len() {
        if graph.rank_at(vertex).is_some() {
            nodes.push(vertex)?;
        }
    }
    Ok(nodes)
}

/// Whether the number stands at the index.
fn stands_at(numbers: &[u32], index: usize, number: u32) -> bool
    ensures { IsTrue result ↔ (slice_get numbers.now index ≡ Some number) }
{
    match numbers.get(index) {
        Some(found) => *found == number,
        None => false,
    }
}

/// The nodes that are not among those for which something is true. Both lists have one order.
pub(crate) fn others_of(alloc: Global, nodes: &[u32], some: &[u32]) -> Result<Vec<u32>, AllocError>
    ensures { IfOk result (λ others. AreOthers nodes.now some.now others.items) }
{
    let mut others = Vec::new(alloc);
    let mut next = 0;
    'nodes: for node in nodes {
        if stands_at(some, next, *node) {
            next += 1;
        } else {
            others.push(*node)?;
        }
    }
    Ok(others)
}

/// Leaves of the nodes those that are not among those for which something is true.
pub(crate) fn take_away(alloc: Global, nodes: &mut Vec<u32>, some: &[u32]) -> Result<(), AllocError>
    ensures { OnOk result (AreOthers nodes.old.items some.now nodes.new.items) }
{
    let others = others_of(alloc, nodes.as_slice(), some)?;
    *nodes = others;
    Ok(())
}
