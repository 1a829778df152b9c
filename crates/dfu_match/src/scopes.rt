//! Which vertices a need is looked for among.
ghost use Rattle.std.specs.Prelude.{◌≡◌, ◌≤◌, length};
ghost use Rattle.dfu_match.specs.Searches.{scope_of, IsScope, Covers, IsKindOfNeed};
ghost use Rattle.dfu_match.specs.Pairs.{IsSpanOf};
ghost use Rattle.resource_graph.specs.NamedGraph.{vertices_of};

use flux_defs::Need;
use resource_graph::Graph;

/// The vertices from `from` on and before `to`.
#[derive(Clone, Copy)]
pub(crate) struct Span {
    pub(crate) from: u32,
    pub(crate) to: u32,
}

/// The vertices below this one, which follow it, or all.
pub(crate) fn span_of(graph: &Graph, scope: Option<u32>) -> Span
    requires { IsScope (vertices_of graph.now) scope }
    ensures covers { Covers (vertices_of graph.now) (scope_of scope) result.from result.to }
    ensures within { result.to ≤ length (vertices_of graph.now) }
    ensures span { IsSpanOf (vertices_of graph.now) scope result.from result.to }
{
    graph.is_valid();
    match scope {
        None => Span {
            from: 0,
            to: graph.len(),
        },
        Some(upper) => Span {
            from: upper + 1,
            to: graph.past(upper),
        },
    }
}

/// The kind of the need's vertices, that of nodes for a spread; none where the graph has no nodes.
pub(crate) fn kind_of(graph: &Graph, need: &Need) -> Option<u32>
    ensures { IsKindOfNeed (vertices_of graph.now) need.now result }
{
    graph.is_valid();
    match need.kind() {
        Some(kind) => Some(kind),
        None => graph.kind_of(b"node"),
    }
}
