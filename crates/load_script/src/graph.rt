//! The graph of a load.
ghost use Rattle.std.specs.Prelude.{◌≡◌, ◌<◌, ◌≤◌, ◌++◌, decimal, IfOk};
ghost use Rattle.load_script.specs.Vertices.{load_kinds, plain_vertex, cluster, rack, node, core, memory, vertex_at};
ghost use Rattle.load_script.specs.Vertices.{load_vertices, IsLoadGraph};

use flux_defs::{List, Text};
use graph_build::{GraphFault, RawVertex, build};
use resource_graph::Graph;
use std::alloc::{AllocError, Global};
use text_forms::{push, push_decimal};

/// How many vertices the graph of a load has.
const VERTICES: u32 = 4_625;

/// The types of the vertices.
fn load_kinds(alloc: Global) -> Result<List<Text>, AllocError>
    ensures { IfOk result (λ kinds. kinds ≡ load_kinds) }
{
    let mut kinds = Vec::new(alloc);
    push(&mut kinds, Text::of(alloc, b"cluster")?)?;
    push(&mut kinds, Text::of(alloc, b"rack")?)?;
    push(&mut kinds, Text::of(alloc, b"node")?)?;
    push(&mut kinds, Text::of(alloc, b"core")?)?;
    push(&mut kinds, Text::of(alloc, b"memory")?)?;
    Ok(List::of_vec(kinds))
}

/// A type and a number.
fn numbered(alloc: Global, base: &[u8], number: u32) -> Result<Text, AllocError>
    ensures { IfOk result (λ text. text ≡ base.now ++ decimal number) }
{
    let mut text = Vec::from_slice(alloc, base)?;
    push_decimal(&mut text, u64::from(number))?;
    Ok(Text::of_vec(text))
}

/// A vertex of this type and id, of one unit, which is called by both.
fn plain_vertex(
    alloc: Global,
    kind: u32,
    base: &[u8],
    id: u32,
    parent: Option<u32>,
) -> Result<RawVertex, AllocError>
    ensures { IfOk result (λ vertex. vertex ≡ plain_vertex kind base.now id parent) }
{
    Ok(RawVertex {
        kind,
        base: Text::of(alloc, base)?,
        name: numbered(alloc, base, id)?,
        id: Some(id),
        rank: None,
        size: 1,
        unit: Text::empty(alloc),
        properties: List::new(alloc),
        parent,
    })
}

/// The node of this number.
fn node(alloc: Global, i: u32) -> Result<RawVertex, AllocError>
    requires { i < 256 }
    ensures { IfOk result (λ vertex. vertex ≡ node i) }
{
    let mut vertex = plain_vertex(alloc, 2, b"node", i, Some(1 + i / 16))?;
    vertex.rank = Some(i);
    Ok(vertex)
}

/// The memory of the node of this number.
fn memory(alloc: Global, i: u32) -> Result<RawVertex, AllocError>
    requires { i < 256 }
    ensures { IfOk result (λ vertex. vertex ≡ memory i) }
{
    let mut vertex = plain_vertex(alloc, 4, b"memory", 0, Some(17 + i))?;
    vertex.size = 64;
    vertex.unit = Text::of(alloc, b"GB")?;
    Ok(vertex)
}

/// The vertex of this number: the cluster, 16 racks, 256 nodes, 4,096 cores, and 256 memories.
fn vertex_at(alloc: Global, v: u32) -> Result<RawVertex, AllocError>
    requires { v < 4625 }
    ensures { IfOk result (λ vertex. vertex ≡ vertex_at v) }
{
    if v < 1 {
        return plain_vertex(alloc, 0, b"cluster", 0, None);
    }
    if v < 17 {
        return plain_vertex(alloc, 1, b"rack", v - 1, Some(0));
    }
    if v < 273 {
        return node(alloc, v - 17);
    }
    if v < 4_369 {
        let i = v - 273;
        return plain_vertex(alloc, 3, b"core", i % 16, Some(17 + i / 16));
    }
    memory(alloc, v - 4_369)
}

/// The vertices, type by type.
fn load_vertices(alloc: Global) -> Result<List<RawVertex>, AllocError>
    ensures { IfOk result (λ vertices. vertices ≡ load_vertices) }
{
    let mut vertices = Vec::new(alloc);
    for v in 0..VERTICES {
        let vertex = vertex_at(alloc, v)?;
        push(&mut vertices, vertex)?;
    }
    Ok(List::of_vec(vertices))
}

/// The error of this fault, which is want of memory.
fn memory_fault(_fault: GraphFault) -> AllocError
    requires { _fault ≡ GraphFault.Memory }
{
    AllocError
}

/// The graph of a load: one cluster of 16 racks of 16 nodes, each of 16 cores and 64 GB of memory. Nothing is wrong
/// with its list of vertices, so it is built unless memory is wanting.
pub fn load_graph(alloc: Global) -> Result<Graph, AllocError>
    ensures { IfOk result IsLoadGraph }
{
    let kinds = load_kinds(alloc)?;
    let vertices = load_vertices(alloc)?;
    match build(alloc, kinds, vertices) {
        Ok(graph) => Ok(graph),
        Err(fault) => Err(memory_fault(fault)),
    }
}
