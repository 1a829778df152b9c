//! The vertices that a resource set gives.
ghost use Rattle.std.specs.Prelude.{◌≡◌, ◌≤◌, ◌++◌, length, map, decimal, IfOk, OnOk};
ghost use Rattle.graph_from_r.specs.Vertices.{r_kinds, plain_vertex, node_vertex, device, devices_of, r_vertices};

use crate::names::{base_of, number_of_name};
use crate::nodes::RNode;
use flux_defs::{List, Text};
use graph_build::RawVertex;
use std::alloc::{AllocError, Global};
use text_forms::{push, push_decimal};

/// The types of the vertices.
pub(crate) fn r_kinds(alloc: Global) -> Result<List<Text>, AllocError>
    ensures { IfOk result (λ kinds. kinds ≡ r_kinds) }
{
    let mut kinds = Vec::new(alloc);
    push(&mut kinds, Text::of(alloc, b"cluster")?)?;
    push(&mut kinds, Text::of(alloc, b"node")?)?;
    push(&mut kinds, Text::of(alloc, b"core")?)?;
    push(&mut kinds, Text::of(alloc, b"gpu")?)?;
    Ok(List::of_vec(kinds))
}

/// A type and a number.
fn numbered(alloc: Global, base: &[u8], number: u32) -> Result<Text, AllocError>
    ensures { IfOk result (λ text. text ≡ base.now ++ decimal number) }
{
    let mut text = Vec::from_slice(alloc, base)?;
    push_decimal(&mut text, u64::from(number))?;
    Ok(Text::of_vec(text))
}

/// A vertex of this type and id, which is called by both.
fn plain_vertex(
    alloc: Global,
    kind: u32,
    base: &[u8],
    id: u32,
    parent: Option<u32>,
) -> Result<RawVertex, AllocError>
    ensures { IfOk result (λ vertex. vertex ≡ plain_vertex kind base.now id parent) }
{
    Ok(RawVertex {
        kind,
        base: Text::of(alloc, base)?,
        name: numbered(alloc, base, id)?,
        id: Some(id),
        rank: None,
        size: 1,
        unit: Text::empty(alloc),
        properties: List::new(alloc),
        parent,
    })
}

/// Equal texts.
fn copied(alloc: Global, texts: &[Text]) -> Result<List<Text>, AllocError>
    ensures { IfOk result (λ copies. copies ≡ texts.now) }
{
    let mut copies = Vec::with_capacity(alloc, texts.len())?;
    'texts: for text in texts {
        push(&mut copies, text.copy(alloc)?)?;
    }
    Ok(List::of_vec(copies))
}

/// The vertex of a node.
fn node_vertex(alloc: Global, node: &RNode) -> Result<RawVertex, AllocError>
    ensures { IfOk result (λ vertex. vertex ≡ node_vertex node.now) }
{
    let name = node.name.bytes();
    Ok(RawVertex {
        kind: 1,
        base: Text::of(alloc, base_of(name))?,
        name: Text::of(alloc, name)?,
        id: number_of_name(name),
        rank: Some(node.rank),
        size: 1,
        unit: Text::empty(alloc),
        properties: copied(alloc, node.properties.items())?,
        parent: Some(0),
    })
}

/// Adds the vertices of the nodes.
fn add_nodes(
    alloc: Global,
    vertices: &mut Vec<RawVertex>,
    nodes: &[RNode],
) -> Result<(), AllocError>
    ensures { OnOk result (vertices.new.items ≡ vertices.old.items ++ map node_vertex nodes.now) }
{
    'nodes: for node in nodes {
        push(vertices, node_vertex(alloc, node)?)?;
    }
    Ok(())
}

/// Adds the vertices of this type with these ids.
fn add_devices(
    alloc: Global,
    vertices: &mut Vec<RawVertex>,
    kind: u32,
    base: &[u8],
    parent: u32,
    ids: &[u32],
) -> Result<(), AllocError>
    ensures { OnOk result (vertices.new.items ≡ vertices.old.items ++ map (device kind base.now parent) ids.now) }
{
    'devices: for id in ids {
        push(
            vertices,
            plain_vertex(alloc, kind, base, *id, Some(parent))?,
        )?;
    }
    Ok(())
}

/// Adds the cores and then the gpus of each node; the first node is vertex 1.
fn add_all_devices(
    alloc: Global,
    vertices: &mut Vec<RawVertex>,
    nodes: &[RNode],
) -> Result<(), AllocError>
    requires { length nodes.now ≤ 65536 }
    ensures { OnOk result (vertices.new.items ≡ vertices.old.items ++ devices_of 1 nodes.now) }
{
    let mut parent = 1;
    'nodes: for node in nodes {
        add_devices(alloc, vertices, 2, b"core", parent, node.cores.items())?;
        add_devices(alloc, vertices, 3, b"gpu", parent, node.gpus.items())?;
        parent += 1;
    }
    Ok(())
}

/// The cluster, the nodes, and then the cores and gpus of each node.
pub(crate) fn r_vertices(alloc: Global, nodes: &[RNode]) -> Result<List<RawVertex>, AllocError>
    requires { length nodes.now ≤ 65536 }
    ensures { IfOk result (λ vertices. vertices ≡ r_vertices nodes.now) }
{
    let mut vertices = Vec::new(alloc);
    push(&mut vertices, plain_vertex(alloc, 0, b"cluster", 0, None)?)?;
    add_nodes(alloc, &mut vertices, nodes)?;
    add_all_devices(alloc, &mut vertices, nodes)?;
    Ok(List::of_vec(vertices))
}
