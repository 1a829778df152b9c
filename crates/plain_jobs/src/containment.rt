//! Containment of any two numbers.
ghost use Rattle.std.specs.Prelude.{◌≡◌};
ghost use Rattle.flux_defs.specs.Graph.{is_at_or_below};
ghost use Rattle.resource_graph.specs.NamedGraph.{vertices_of};

use resource_graph::Graph;

/// Whether the vertex is `upper` or below it; no number past the graph is below another.
pub fn is_at_or_below(graph: &Graph, vertex: u32, upper: u32) -> bool
    ensures { result ≡ is_at_or_below (vertices_of graph.now) vertex upper }
{
    let len = graph.vertices().len();
    if vertex == upper {
        return true;
    }
    if vertex as usize >= len || upper as usize >= len {
        return false;
    }
    graph.below(upper, vertex)
}
