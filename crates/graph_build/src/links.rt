//! The first vertex whose parent or type is wrong, and the roots.
ghost use Rattle.std.specs.Prelude.{◌≡◌, ◌<◌, ◌↔◌, ℕ, IsTrue, IfSome, position, length};
ghost use Rattle.graph_build.specs.Faults.{HasUnknownParent, HasUnknownKind, IsRoot, IsSecondRoot};
ghost use Rattle.graph_build.specs.Checks.{graph_in, has_parent_from};
ghost use Rattle.resource_graph.specs.Finds.{IsFirstOf};
ghost use Rattle.resource_graph.specs.Preorder.{plain};

use crate::finding::first_where;
use flux_defs::{Text, Vertex};

/// The first vertex whose parent is no vertex of the list.
pub(crate) fn first_unknown_parent(vertices: &[Vertex]) -> Option<usize>
    ensures first { IsFirstOf (HasUnknownParent (plain vertices.now)) result }
    ensures within { IfSome result (λ v. v < length vertices.now) }
{
    parent_past(vertices, vertices.len())
}

/// The first vertex whose parent is at this index or past it.
fn parent_past(vertices: &[Vertex], count: usize) -> Option<usize>
    ensures { result ≡ position (has_parent_from count) vertices.now }
{
    vertices
        .iter()
        .position(|vertex| parent_is_from(vertex, count))
}

/// The first vertex whose kind is no type of the list.
pub(crate) fn first_unknown_kind(kinds: &[Text], vertices: &[Vertex]) -> Option<usize>
    ensures first { IsFirstOf (HasUnknownKind (graph_in kinds.now vertices.now)) result }
    ensures within { IfSome result (λ v. v < length vertices.now) }
{
    let count = kinds.len();
    vertices
        .iter()
        .position(|vertex| vertex.kind as usize >= count)
}

/// The first vertex without a parent.
pub(crate) fn first_root(vertices: &[Vertex]) -> Option<usize>
    ensures first { IsFirstOf (IsRoot (plain vertices.now)) result }
    ensures within { IfSome result (λ v. v < length vertices.now) }
{
    vertices.iter().position(|vertex| vertex.parent.is_none())
}

/// The second vertex without a parent.
pub(crate) fn second_root(vertices: &[Vertex], first: usize) -> Option<usize>
    requires root { IsRoot (plain vertices.now) first }
    requires least { (u : ℕ) → u < first → IsRoot (plain vertices.now) u → ⊥ }
    ensures first { IsFirstOf (IsSecondRoot (plain vertices.now)) result }
    ensures within { IfSome result (λ v. v < length vertices.now) }
{
    first_where(first + 1, vertices.len(), |v| is_root_at(vertices, v))
}

/// Whether the vertex has no parent.
fn is_root_at(vertices: &[Vertex], v: usize) -> bool
    requires { v < length vertices.now }
    ensures { IsTrue result ↔ IsRoot (plain vertices.now) v }
{
    vertices[v].parent.is_none()
}

/// Whether the vertex's parent is at this index or past it.
fn parent_is_from(vertex: &Vertex, count: usize) -> bool
    ensures { result ≡ has_parent_from count vertex.now }
{
    match vertex.parent {
        Some(parent) => parent as usize >= count,
        None => false,
    }
}
