//! The nodes that an ask bars, as a rising list.
ghost use Rattle.std.specs.Prelude.{◌<◌, length, IfSome, IsTrue};
ghost use Rattle.std.specs.List.{list_any};
ghost use Rattle.std.specs.List.Sorted.{IsStrictlyIncreasing};
ghost use Rattle.flux_defs.specs.Graph.{IsNode, is_at_or_below};
ghost use Rattle.dfu_match.specs.Bars.{IsLeastOrNone, BarsAll};
ghost use Rattle.resource_graph.specs.NamedGraph.{vertices_of};

use resource_graph::Graph;
use text_forms::index_of;

/// The least number of a rising list from `from` on.
pub(crate) fn least_from(list: &[u32], from: u32) -> Option<u32>
    requires { IsStrictlyIncreasing list.now }
    ensures { IsLeastOrNone list.now from result }
{
    let index = index_of(list, from);
    if index == list.len() {
        return None;
    }
    Some(list[index])
}

/// Whether every node is barred: it looks no further than to the first that isn't.
pub(crate) fn bars_all(graph: &Graph, barred: &[u32]) -> bool
    ensures { IsTrue result → BarsAll (vertices_of graph.now) barred.now }
{
    let mut next = 0;
    for vertex in 0..graph.len() {
        match after_bar(graph, barred, next, vertex) {
            None => return false,
            Some(after) => next = after,
        }
    }
    true
}

/// How many of the barred nodes are passed after this vertex, of which so many were before it; none where it is a node
/// that isn't the next one barred.
fn after_bar(graph: &Graph, barred: &[u32], next: usize, vertex: u32) -> Option<usize>
    requires { vertex < length (vertices_of graph.now) }
    ensures { IfSome result (λ _. IsNode (vertices_of graph.now) vertex →
        IsTrue (list_any (is_at_or_below (vertices_of graph.now) vertex) barred.now)) }
{
    graph.is_valid();
    if graph.rank_at(vertex).is_none() {
        return Some(next);
    }
    if next >= barred.len() {
        return None;
    }
    if barred[next] != vertex {
        return None;
    }
    Some(next + 1)
}
