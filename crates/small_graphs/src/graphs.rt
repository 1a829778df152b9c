//! Small graphs, from their files.
ghost use Rattle.std.specs.Prelude.{IfOk, IfErr};
ghost use Rattle.std.specs.Arc.{arc_value};
ghost use Rattle.graph_json.specs.GraphText.{IsGraphText, IsFirstFault};

use graph_json::{ReadFault, read_graph};
use resource_graph::Graph;
use std::alloc::Global;
use std::sync::Arc;

/// A cluster over two nodes of four cores each.
pub const TWO_NODES: &str =
    r#"{"graph":{"nodes":[{"id":"c","metadata":{"type":"cluster","id":0}},{"id":"n0","metadata":{"type":"node","id":0}},{"id":"n0.0","metadata":{"type":"core","id":0}},{"id":"n0.1","metadata":{"type":"core","id":1}},{"id":"n0.2","metadata":{"type":"core","id":2}},{"id":"n0.3","metadata":{"type":"core","id":3}},{"id":"n1","metadata":{"type":"node","id":1}},{"id":"n1.0","metadata":{"type":"core","id":0}},{"id":"n1.1","metadata":{"type":"core","id":1}},{"id":"n1.2","metadata":{"type":"core","id":2}},{"id":"n1.3","metadata":{"type":"core","id":3}}],"edges":[{"source":"c","target":"n0"},{"source":"n0","target":"n0.0"},{"source":"n0","target":"n0.1"},{"source":"n0","target":"n0.2"},{"source":"n0","target":"n0.3"},{"source":"c","target":"n1"},{"source":"n1","target":"n1.0"},{"source":"n1","target":"n1.1"},{"source":"n1","target":"n1.2"},{"source":"n1","target":"n1.3"}]}}"#;

/// A cluster over two nodes; a node has two cores and a memory of 4.
pub const WITH_MEMORY: &str =
    r#"{"graph":{"nodes":[{"id":"c","metadata":{"type":"cluster","id":0}},{"id":"n0","metadata":{"type":"node","id":0}},{"id":"n0.0","metadata":{"type":"core","id":0}},{"id":"n0.1","metadata":{"type":"core","id":1}},{"id":"n0.m","metadata":{"type":"memory","id":0,"size":4,"unit":"GB"}},{"id":"n1","metadata":{"type":"node","id":1}},{"id":"n1.0","metadata":{"type":"core","id":0}},{"id":"n1.1","metadata":{"type":"core","id":1}},{"id":"n1.m","metadata":{"type":"memory","id":0,"size":4,"unit":"GB"}}],"edges":[{"source":"c","target":"n0"},{"source":"n0","target":"n0.0"},{"source":"n0","target":"n0.1"},{"source":"n0","target":"n0.m"},{"source":"c","target":"n1"},{"source":"n1","target":"n1.0"},{"source":"n1","target":"n1.1"},{"source":"n1","target":"n1.m"}]}}"#;

/// The graph of a file's text.
///
/// # Errors
/// Those of `read_graph`.
pub fn graph_of(alloc: Global, text: &str) -> Result<Graph, ReadFault>
    ensures graph { IfOk result (IsGraphText text.now) }
    ensures fault { IfErr result (IsFirstFault text.now) }
{
    read_graph(alloc, text.as_bytes())
}

/// The same, to be shared.
///
/// # Errors
/// Those of `read_graph`.
pub fn shared_graph(alloc: Global, text: &str) -> Result<Arc<Graph, Global>, ReadFault>
    ensures graph { IfOk result (λ graph. IsGraphText text.now (arc_value graph)) }
    ensures fault { IfErr result (IsFirstFault text.now) }
{
    match Arc::new(alloc, graph_of(alloc, text)?) {
        Ok(graph) => Ok(graph),
        Err(_) => Err(ReadFault::Memory),
    }
}
