//! The fields of a graph file's JSON value, and where they stand.
ghost use Rattle.std.specs.Prelude.{◌≡◌, IfOk};
ghost use Rattle.graph_json.specs.FieldPaths.{node_key, edge_key, path_text};

use flux_defs::Text;
use json_fields::{Misfit, member_path};
use json_whole::FieldFault;
use std::alloc::{AllocError, Global};

/// Where the list of nodes stands.
const NODES: &[u8] = b"graph.nodes";
/// Where the list of edges stands.
const EDGES: &[u8] = b"graph.edges";

/// A key of a node, or of its metadata.
#[derive(Clone, Copy, PartialEq, Eq)]
pub(crate) enum NodeKey {
    Id,
    Metadata,
    TypeName,
    Basename,
    Number,
    Name,
    Rank,
    Size,
    Unit,
    Properties,
}

/// A key of an edge.
#[derive(Clone, Copy, PartialEq, Eq)]
pub(crate) enum EdgeKey {
    Source,
    Target,
    EdgeMetadata,
}

/// A field of the file's value.
#[derive(Clone, Copy, PartialEq, Eq)]
pub(crate) enum FieldPath {
    Whole,
    Graph,
    Nodes,
    Edges,
    Node { at: u64 },
    NodeField { at: u64, key: NodeKey },
    Property { at: u64, member: u64 },
    PropertyKey { at: u64 },
    Edge { at: u64 },
    EdgeField { at: u64, key: EdgeKey },
}

/// A field that breaks its rule.
pub(crate) type FileMisfit = Misfit<FieldPath, FieldFault>;

/// Where a key stands, behind its node.
fn node_key(key: NodeKey) -> &'static str
    ensures { result.now ≡ node_key key }
{
    match key {
        NodeKey::Id => ".id",
        NodeKey::Metadata => ".metadata",
        NodeKey::TypeName => ".metadata.type",
        NodeKey::Basename => ".metadata.basename",
        NodeKey::Number => ".metadata.id",
        NodeKey::Name => ".metadata.name",
        NodeKey::Rank => ".metadata.rank",
        NodeKey::Size => ".metadata.size",
        NodeKey::Unit => ".metadata.unit",
        NodeKey::Properties => ".metadata.properties",
    }
}

/// Where a key stands, behind its edge.
fn edge_key(key: EdgeKey) -> &'static str
    ensures { result.now ≡ edge_key key }
{
    match key {
        EdgeKey::Source => ".source",
        EdgeKey::Target => ".target",
        EdgeKey::EdgeMetadata => ".metadata",
    }
}

/// The path of a field, from the whole text on.
pub(crate) fn path_text(alloc: Global, field: FieldPath) -> Result<Text, AllocError>
    ensures { IfOk result (λ path. path ≡ path_text field) }
{
    match field {
        FieldPath::Whole => Text::of(alloc, b"."),
        FieldPath::Graph => Text::of(alloc, b"graph"),
        FieldPath::Nodes => Text::of(alloc, NODES),
        FieldPath::Edges => Text::of(alloc, EDGES),
        FieldPath::Node { at } => member_path(alloc, NODES, at, ""),
        FieldPath::NodeField { at, key } => member_path(alloc, NODES, at, node_key(key)),
        FieldPath::Property { at, member } => {
            let list = member_path(alloc, NODES, at, ".metadata.properties")?;
            member_path(alloc, list.bytes(), member, "")
        }
        FieldPath::PropertyKey { at } => member_path(alloc, NODES, at, ".metadata.properties.*"),
        FieldPath::Edge { at } => member_path(alloc, EDGES, at, ""),
        FieldPath::EdgeField { at, key } => member_path(alloc, EDGES, at, edge_key(key)),
    }
}
