//! The first vertex of which something of its own is wrong: its type, its size or its id.
ghost use Rattle.std.specs.Prelude.{◌≡◌, ◌<◌, ◌↔◌, ◌⊎◌, IsTrue, IfSome, codes, length, slice_get};
ghost use Rattle.flux_defs.specs.ValidGraph.{IsDevice};
ghost use Rattle.graph_build.specs.Faults.{IsNodeType, IsReserved, IsSized, IsLarge, HasNoId};
ghost use Rattle.resource_graph.specs.Preorder.{plain};
ghost use Rattle.resource_graph.specs.Finds.{IsFirstOf};
ghost use Rattle.graph_build.specs.Checks.{graph_in};

use flux_defs::{GREATEST_NUMBER, Text, Vertex};

/// Whether the kind is called so.
pub(crate) fn is_called(kinds: &[Text], kind: u32, name: &[u8]) -> bool
    ensures { IsTrue result ↔ (slice_get kinds.now kind ≡ Some name.now) }
{
    if kind as usize >= kinds.len() {
        return false;
    }
    kinds[kind as usize].bytes() == name
}

/// Whether the vertex is a node.
pub(crate) fn is_node_at(kinds: &[Text], vertices: &[Vertex], v: usize) -> bool
    requires { v < length vertices.now }
    ensures { IsTrue result ↔ IsNodeType (graph_in kinds.now vertices.now) v }
{
    is_called(kinds, vertices[v].kind, b"node")
}

/// Whether the type is that of cores or of gpus.
fn is_device(kinds: &[Text], kind: u32) -> bool
    ensures { IsTrue result ↔ ((slice_get kinds.now kind ≡ Some (codes "core")) ⊎
        (slice_get kinds.now kind ≡ Some (codes "gpu"))) }
{
    is_called(kinds, kind, b"core") || is_called(kinds, kind, b"gpu")
}

/// Whether the vertex is a core or a gpu.
pub(crate) fn is_device_at(kinds: &[Text], vertices: &[Vertex], v: usize) -> bool
    requires { v < length vertices.now }
    ensures { IsTrue result ↔ IsDevice (graph_in kinds.now vertices.now) v }
{
    if is_called(kinds, vertices[v].kind, b"core") {
        return true;
    }
    is_called(kinds, vertices[v].kind, b"gpu")
}

/// Whether the type is that of nodes, of cores or of gpus.
fn is_whole(kinds: &[Text], kind: u32) -> bool
    ensures { IsTrue result ↔ ((slice_get kinds.now kind ≡ Some (codes "node")) ⊎
        ((slice_get kinds.now kind ≡ Some (codes "core")) ⊎ (slice_get kinds.now kind ≡ Some (codes "gpu")))) }
{
    is_called(kinds, kind, b"node") || is_device(kinds, kind)
}

/// The first vertex whose type is called slot.
pub(crate) fn first_reserved(kinds: &[Text], vertices: &[Vertex]) -> Option<usize>
    ensures first { IsFirstOf (IsReserved (graph_in kinds.now vertices.now)) result }
    ensures within { IfSome result (λ v. v < length vertices.now) }
{
    vertices
        .iter()
        .position(|vertex| is_called(kinds, vertex.kind, b"slot"))
}

/// The first node, core or gpu of a size other than 1.
pub(crate) fn first_sized(kinds: &[Text], vertices: &[Vertex]) -> Option<usize>
    ensures first { IsFirstOf (IsSized (graph_in kinds.now vertices.now)) result }
    ensures within { IfSome result (λ v. v < length vertices.now) }
{
    vertices
        .iter()
        .position(|vertex| vertex.size != 1 && is_whole(kinds, vertex.kind))
}

/// The first vertex of a size past the greatest number.
pub(crate) fn first_large(vertices: &[Vertex]) -> Option<usize>
    ensures first { IsFirstOf (IsLarge (plain vertices.now)) result }
    ensures within { IfSome result (λ v. v < length vertices.now) }
{
    vertices
        .iter()
        .position(|vertex| vertex.size > GREATEST_NUMBER)
}

/// The first core or gpu without an id.
pub(crate) fn first_unnamed(kinds: &[Text], vertices: &[Vertex]) -> Option<usize>
    ensures first { IsFirstOf (HasNoId (graph_in kinds.now vertices.now)) result }
    ensures within { IfSome result (λ v. v < length vertices.now) }
{
    vertices.iter().position(|vertex| vertex.id.is_none() && is_device(kinds, vertex.kind))
}
