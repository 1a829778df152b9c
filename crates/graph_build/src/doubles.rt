//! The first vertex that has what only one may have: an id in its node, a name among its siblings or among the nodes,
//! or the rank of a node.
ghost use Rattle.std.specs.Prelude.{◌≡◌, ◌<◌, ℕ, IfOk, IfSome, IsTrue, length, map};
ghost use Rattle.graph_build.specs.Faults.{IsNestedInKind, HasDoubleId, HasDoubleName, HasBadRank};
ghost use Rattle.graph_build.specs.Checks.{graph_in, HasHouses};
ghost use Rattle.resource_graph.specs.Finds.{IsFirstOf};
ghost use Rattle.graph_build.specs.Raw.{KindsApart, shape_of, raw_graph, raw_names};
ghost use Rattle.graph_build.specs.Keys.{HasEach, IsDeviceKey, IsSiblingKey, IsNodeName, IsNodeRank, IsUnranked};
ghost use Rattle.graph_build.specs.Keys.{IsDoubleSibling, IsNameBefore};

use crate::arrange::ranks_given;
use crate::own::{is_called, is_device_at, is_node_at};
use crate::raw::RawVertex;
use crate::repeats::{first_repeated, lesser};
use flux_defs::{Text, Vertex};
use std::alloc::{AllocError, Global};
use std::cmp::Ordering;

/// What tells the cores and gpus apart.
#[derive(Clone, Copy, PartialEq, Eq, PartialOrd, Ord)]
pub(crate) struct DeviceKey {
    pub node: u32,
    pub kind: u32,
    pub id: u32,
}

/// What tells siblings apart.
#[derive(Clone, Copy, PartialEq, Eq, PartialOrd, Ord)]
pub(crate) struct SiblingKey<'a> {
    pub parent: u32,
    pub name: &'a [u8],
}

/// The key of a core or gpu.
fn device_key(
    kinds: &[Text],
    vertices: &[Vertex],
    houses: &[Option<u32>],
    v: usize,
) -> Option<DeviceKey>
    requires within { v < length vertices.now }
    requires houses { HasHouses (graph_in kinds.now vertices.now) (length vertices.now) houses.now }
    ensures { IsDeviceKey (graph_in kinds.now vertices.now) v result }
{
    if !is_device_at(kinds, vertices, v) {
        return None;
    }
    Some(DeviceKey {
        node: houses[v]?,
        kind: vertices[v].kind,
        id: vertices[v].id?,
    })
}

/// By vertex, the key of a core or gpu.
fn device_keys(
    alloc: Global,
    kinds: &[Text],
    vertices: &[Vertex],
    houses: &[Option<u32>],
) -> Result<Vec<Option<DeviceKey>>, AllocError>
    requires houses { HasHouses (graph_in kinds.now vertices.now) (length vertices.now) houses.now }
    ensures { IfOk result (λ keys. HasEach (IsDeviceKey (graph_in kinds.now vertices.now)) (length vertices.now)
        keys.items) }
{
    let mut keys = Vec::with_capacity(alloc, vertices.len())?;
    for v in 0..vertices.len() {
        keys.push(device_key(kinds, vertices, houses, v))?;
    }
    Ok(keys)
}

/// The first core or gpu with the id of an earlier one of its type and node.
pub(crate) fn first_double_id(
    alloc: Global,
    kinds: &[Text],
    vertices: &[Vertex],
    houses: &[Option<u32>],
) -> Result<Option<usize>, AllocError>
    requires apart { KindsApart kinds.now }
    requires unnested { (v : ℕ) → IsNestedInKind (graph_in kinds.now vertices.now) v → ⊥ }
    requires houses { HasHouses (graph_in kinds.now vertices.now) (length vertices.now) houses.now }
    ensures first { IfOk result (IsFirstOf (HasDoubleId (graph_in kinds.now vertices.now))) }
    ensures within { IfOk result (λ found. IfSome found (λ v. v < length vertices.now)) }
{
    let keys = device_keys(alloc, kinds, vertices, houses)?;
    first_repeated(alloc, keys.as_slice())
}

/// By vertex, its parent and its name.
fn sibling_keys<'a>(
    alloc: Global,
    raw: &'a [RawVertex],
) -> Result<Vec<Option<SiblingKey<'a>>>, AllocError>
    ensures { IfOk result (λ keys. HasEach (IsSiblingKey raw.now) (length raw.now) keys.items) }
{
    let mut keys = Vec::with_capacity(alloc, raw.len())?;
    for v in 0..raw.len() {
        keys.push(sibling_key(raw, v))?;
    }
    Ok(keys)
}

/// The vertex's parent and its name.
fn sibling_key<'a>(raw: &'a [RawVertex], v: usize) -> Option<SiblingKey<'a>>
    requires { v < length raw.now }
    ensures { IsSiblingKey raw.now v result }
{
    Some(SiblingKey {
        parent: raw[v].parent?,
        name: raw[v].name.bytes(),
    })
}

/// The first vertex with the parent and the name of an earlier one.
fn first_double_sibling(
    alloc: Global,
    keys: &[Option<SiblingKey<'_>>],
) -> Result<Option<usize>, AllocError>
    ensures first { IfOk result (IsFirstOf (IsDoubleSibling keys.now)) }
    ensures within { IfOk result (λ found. IfSome found (λ v. v < length keys.now)) }
{
    if siblings_rise(alloc, keys)? {
        return Ok(None);
    }
    let found = first_repeated(alloc, keys)?;
    Ok(found)
}

/// Whether each name comes after that of the sibling before it. Such names are apart, and no search is needed.
fn siblings_rise<'a>(alloc: Global, keys: &[Option<SiblingKey<'a>>]) -> Result<bool, AllocError>
    ensures { IfOk result (λ rise. IsTrue rise → (v : ℕ) → IsDoubleSibling keys.now v → ⊥) }
{
    // By parent, the name of the child that was looked at last.
    let mut last: Vec<Option<&'a [u8]>> = vec![in alloc; None; keys.len()]?;
    for at in 0..keys.len() {
        let Some(key) = keys[at] else { continue };
        let parent = index_of_parent(key.parent);
        if parent >= last.len() {
            return Ok(false);
        }
        if let Some(before) = last[parent] {
            if !is_before(before, key.name) {
                return Ok(false);
            }
        }
        last[parent] = Some(key.name);
    }
    Ok(true)
}

/// The parent as an index.
fn index_of_parent(parent: u32) -> usize
    ensures { result ≡ parent }
{
    parent as usize
}

/// Whether a name is shorter than another one, or as long and less.
fn is_before(name: &[u8], other: &[u8]) -> bool
    ensures { IsTrue result → IsNameBefore name.now other.now }
{
    if name.len() != other.len() {
        return name.len() < other.len();
    }
    match name.cmp(other) {
        Ordering::Less => true,
        _ => false,
    }
}

/// By vertex, the name of a node.
fn node_names<'a>(
    alloc: Global,
    kinds: &[Text],
    raw: &'a [RawVertex],
) -> Result<Vec<Option<&'a [u8]>>, AllocError>
    ensures { IfOk result (λ keys. HasEach (IsNodeName kinds.now raw.now) (length raw.now) keys.items) }
{
    let mut keys = Vec::with_capacity(alloc, raw.len())?;
    for v in 0..raw.len() {
        keys.push(node_name(kinds, raw, v))?;
    }
    Ok(keys)
}

/// The name of a node.
fn node_name<'a>(kinds: &[Text], raw: &'a [RawVertex], v: usize) -> Option<&'a [u8]>
    requires { v < length raw.now }
    ensures { IsNodeName kinds.now raw.now v result }
{
    if !is_called(kinds, raw[v].kind, b"node") {
        return None;
    }
    Some(raw[v].name.bytes())
}

/// The first vertex with the name of an earlier sibling, and the first node with that of an earlier node, whichever
/// is less.
pub(crate) fn first_double_name(
    alloc: Global,
    kinds: &[Text],
    raw: &[RawVertex],
) -> Result<Option<usize>, AllocError>
    ensures first { IfOk result (IsFirstOf (HasDoubleName (raw_graph kinds.now raw.now) (raw_names raw.now))) }
    ensures within { IfOk result (λ found. IfSome found (λ v. v < length raw.now)) }
{
    let siblings = sibling_keys(alloc, raw)?;
    let sibling = first_double_sibling(alloc, siblings.as_slice())?;
    let nodes = node_names(alloc, kinds, raw)?;
    let node = first_repeated(alloc, nodes.as_slice())?;
    Ok(lesser(sibling, node))
}

/// By vertex, the rank of a node.
fn node_ranks(
    alloc: Global,
    kinds: &[Text],
    vertices: &[Vertex],
) -> Result<Vec<Option<u32>>, AllocError>
    ensures { IfOk result (λ keys. HasEach (IsNodeRank (graph_in kinds.now vertices.now)) (length vertices.now)
        keys.items) }
{
    let mut keys = Vec::with_capacity(alloc, vertices.len())?;
    for v in 0..vertices.len() {
        keys.push(node_rank(kinds, vertices, v))?;
    }
    Ok(keys)
}

/// The rank of a node.
fn node_rank(kinds: &[Text], vertices: &[Vertex], v: usize) -> Option<u32>
    requires { v < length vertices.now }
    ensures { IsNodeRank (graph_in kinds.now vertices.now) v result }
{
    if !is_node_at(kinds, vertices, v) {
        return None;
    }
    vertices[v].rank
}

/// The first node without a rank.
fn first_unranked(kinds: &[Text], vertices: &[Vertex]) -> Option<usize>
    ensures first { IsFirstOf (IsUnranked (graph_in kinds.now vertices.now)) result }
    ensures within { IfSome result (λ v. v < length vertices.now) }
{
    vertices.iter().position(|vertex| vertex.rank.is_none()
        && is_called(kinds, vertex.kind, b"node"))
}

/// Where some node has a rank, the first node without one or with that of an earlier node.
pub(crate) fn first_bad_rank(
    alloc: Global,
    kinds: &[Text],
    vertices: &[Vertex],
) -> Result<Option<usize>, AllocError>
    ensures first { IfOk result (IsFirstOf (HasBadRank (graph_in kinds.now vertices.now))) }
    ensures within { IfOk result (λ found. IfSome found (λ v. v < length vertices.now)) }
{
    if !ranks_given(kinds, vertices) {
        return Ok(None);
    }
    let unranked = first_unranked(kinds, vertices);
    let ranks = node_ranks(alloc, kinds, vertices)?;
    let repeated = first_repeated(alloc, ranks.as_slice())?;
    Ok(lesser(unranked, repeated))
}
