//! Vertices of the resource graph.

/// A vertex of the resource graph (RFC 4): a resource, or a pool of `size` units of one.
/// Its kind is a number of the graph's list of types, its parent the number of the vertex that contains it,
/// its id the number that its type's own counts give it. Exactly the nodes have a rank.
#[derive(Clone, Copy, Debug, PartialEq, Eq)]
pub struct Vertex {
    pub kind: u32,
    pub size: u64,
    pub parent: Option<u32>,
    pub id: Option<u32>,
    pub rank: Option<u32>,
}
