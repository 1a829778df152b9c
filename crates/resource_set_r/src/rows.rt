//! The elements of `R_lite`.
ghost use Rattle.std.specs.Prelude.{◌≡◌, ℕ, List, [], ◌∷◌, ◌++◌, map, unwrap_or, slice_get, IfOk, codes};
ghost use Rattle.std.specs.List.{All, filter_map};
ghost use Rattle.std.specs.List.Sorted.{IsStrictlyIncreasing};
ghost use Rattle.resource_set_r.specs.WrittenR.{RisesWithin};
ghost use Rattle.resource_set_r.specs.Rows.{host_of, type_called, element_of, rising, rank_above, is_of_type};
ghost use Rattle.resource_set_r.specs.Rows.{id_of_type, ids_among, children_in, part_of, is_same, with_rank};
ghost use Rattle.resource_set_r.specs.Rows.{elements_from, elements};

use crate::sets::{add, in_order};
use flux_defs::{List, Text, Vertex};
use resource_graph::Graph;
use std::alloc::{AllocError, Global};
use text_forms::index_of;

/// The ids of cores and of gpus of a node.
#[derive(Debug, Drop)]
pub struct Children {
    pub cores: List<u32>,
    pub gpus: List<u32>,
}

/// Ranks with equal children.
#[derive(Debug, Drop)]
pub struct Element {
    pub ranks: List<u32>,
    pub children: Children,
}

/// The rank of the node that the vertex is or lies below.
fn rank_above(graph: &Graph, vertex: u32) -> Option<u32>
    ensures { result ≡ rank_above graph.now.resources.vertices vertex }
{
    let vertices = graph.vertices();
    if vertex as usize >= vertices.len() {
        return None;
    }
    match graph.node_of(vertex) {
        Some(node) => graph.rank_at(node),
        None => None,
    }
}

/// The ranks of these vertices' nodes, which rise.
pub(crate) fn ranks_of(alloc: Global, graph: &Graph, given: &[u32]) -> Result<List<u32>, AllocError>
    ensures { IfOk result (λ list. list ≡ rising (filter_map (rank_above graph.now.resources.vertices) given.now)) }
{
    let mut ranks = Vec::new(alloc);
    'vertices: for vertex in given {
        if let Some(rank) = rank_above(graph, *vertex) {
            add(&mut ranks, rank)?;
        }
    }
    in_order(alloc, ranks)
}

/// The part of the rising vertices that is of the node of a rank.
fn part_of<'a>(graph: &Graph, given: &'a [u32], rank: u32) -> &'a [u32]
    requires { IsStrictlyIncreasing given.now }
    ensures { result.now ≡ part_of graph.now.resources.vertices given.now rank }
{
    graph.is_valid();
    match graph.node_of_rank(rank) {
        Some(node) => &given[index_of(given, node)..index_of(given, graph.past(node))],
        None => &[],
    }
}

/// Whether the vertex is of this type.
pub(crate) fn is_of_type(vertices: &[Vertex], kind: Option<u32>, vertex: u32) -> bool
    ensures { result ≡ is_of_type vertices.now kind vertex }
{
    match vertices.get(vertex as usize) {
        Some(x) => kind == Some(x.kind),
        None => false,
    }
}

/// The id of the vertex, if it is of this type.
fn id_of_type(vertices: &[Vertex], kind: Option<u32>, vertex: u32) -> Option<u32>
    ensures { result ≡ id_of_type vertices.now kind vertex }
{
    match vertices.get(vertex as usize) {
        Some(x) if kind == Some(x.kind) => x.id,
        _ => None,
    }
}

/// The ids of this type among the vertices, which rise.
fn ids_among(
    alloc: Global,
    vertices: &[Vertex],
    kind: Option<u32>,
    part: &[u32],
) -> Result<List<u32>, AllocError>
    ensures { IfOk result (λ list. list ≡ ids_among vertices.now kind part.now) }
{
    let mut ids = Vec::with_capacity(alloc, part.len())?;
    'vertices: for vertex in part {
        if let Some(id) = id_of_type(vertices, kind, *vertex) {
            add(&mut ids, id)?;
        }
    }
    in_order(alloc, ids)
}

/// Whether both have the same ids.
fn is_same(a: &Children, b: &Children) -> bool
    ensures { result ≡ is_same a.now b.now }
{
    a.cores.items() == b.cores.items() && a.gpus.items() == b.gpus.items()
}

/// What the node of a rank is called.
fn host_of(graph: &Graph, rank: u32) -> &[u8]
    ensures { result.now ≡ host_of graph.now rank }
{
    graph.is_valid();
    match graph.node_of_rank(rank) {
        Some(node) => graph.name_at(node),
        None => &[],
    }
}

/// The names of the nodes of the ranks.
pub(crate) fn hosts_of(
    alloc: Global,
    graph: &Graph,
    ranks: &[u32],
) -> Result<List<Text>, AllocError>
    ensures { IfOk result (λ hosts. hosts ≡ map (host_of graph.now) ranks.now) }
{
    let mut hosts = Vec::with_capacity(alloc, ranks.len())?;
    'ranks: for rank in ranks {
        hosts.push(Text::of(alloc, host_of(graph, *rank))?)?;
    }
    Ok(List::of_vec(hosts))
}

/// The numbers of the types whose vertices R tells apart.
#[derive(Clone, Copy)]
pub(crate) struct Types {
    pub node: Option<u32>,
    pub core: Option<u32>,
    pub gpu: Option<u32>,
}

/// The numbers of a graph's types.
pub(crate) fn types_of(graph: &Graph) -> Types
    ensures node { result.node ≡ type_called graph.now.resources (codes "node") }
    ensures core { result.core ≡ type_called graph.now.resources (codes "core") }
    ensures gpu { result.gpu ≡ type_called graph.now.resources (codes "gpu") }
{
    Types {
        node: type_called(graph, b"node"),
        core: type_called(graph, b"core"),
        gpu: type_called(graph, b"gpu"),
    }
}

/// The number of the type that is called so.
fn type_called(graph: &Graph, name: &[u8]) -> Option<u32>
    ensures { result ≡ type_called graph.now.resources name.now }
{
    graph.is_valid();
    graph.kind_of(name)
}

/// The children of a rank, of what is given.
fn children_of(
    alloc: Global,
    graph: &Graph,
    types: Types,
    given: &[u32],
    rank: u32,
) -> Result<Children, AllocError>
    requires { IsStrictlyIncreasing given.now }
    ensures { IfOk result
        (λ children. children ≡ children_in graph.now.resources.vertices types.core types.gpu given.now rank) }
{
    let part = part_of(graph, given, rank);
    let vertices = graph.vertices().items();
    Ok(Children {
        cores: ids_among(alloc, vertices, types.core, part)?,
        gpus: ids_among(alloc, vertices, types.gpu, part)?,
    })
}

/// An element of one rank.
fn element_of(alloc: Global, rank: u32, children: Children) -> Result<Element, AllocError>
    ensures { IfOk result (λ e. e ≡ element_of rank children) }
{
    Ok(Element {
        ranks: List::of_vec(vec![in alloc; rank]?),
        children,
    })
}

/// One more rank, which joins the last element or begins a new one; the new last one.
fn add_rank(
    alloc: Global,
    elements: &mut Vec<Element>,
    last: Element,
    rank: u32,
    children: Children,
) -> Result<Element, AllocError>
    ensures { IfOk result (λ next. (of : ℕ → Children) (ranks : List ℕ) → of rank ≡ children → elements.new.items
        ++ elements_from of next ranks ≡ elements.old.items ++ elements_from of last (rank ∷ ranks)) }
{
    let mut last = last;
    if is_same(&last.children, &children) {
        match last.ranks.push(rank) {
            Ok(()) => Ok(last),
            Err(_) => Err(AllocError),
        }
    } else {
        elements.push(last)?;
        element_of(alloc, rank, children)
    }
}

/// The elements of the ranks, from the first on.
fn elements_from(
    alloc: Global,
    graph: &Graph,
    types: Types,
    given: &[u32],
    first: u32,
    others: &[u32],
) -> Result<Vec<Element>, AllocError>
    requires { IsStrictlyIncreasing given.now }
    ensures { IfOk result (λ es. es.items
        ≡ elements (children_in graph.now.resources.vertices types.core types.gpu given.now) (first ∷ others.now)) }
{
    let mut elements = Vec::new(alloc);
    let mut last = element_of(
        alloc,
        first,
        children_of(alloc, graph, types, given, first)?,
    )?;
    'ranks: for rank in others {
        let children = children_of(alloc, graph, types, given, *rank)?;
        last = add_rank(alloc, &mut elements, last, *rank, children)?;
    }
    elements.push(last)?;
    Ok(elements)
}

/// The elements of the ranks.
pub(crate) fn elements_of(
    alloc: Global,
    graph: &Graph,
    types: Types,
    given: &[u32],
    ranks: &[u32],
) -> Result<Vec<Element>, AllocError>
    requires given { IsStrictlyIncreasing given.now }
    requires ranks { IsStrictlyIncreasing ranks.now }
    ensures rising { IfOk result (λ es. All RisesWithin es.items) }
    ensures value { IfOk result (λ es. es.items
        ≡ elements (children_in graph.now.resources.vertices types.core types.gpu given.now) ranks.now) }
{
    match ranks {
        [] => Ok(Vec::new(alloc)),
        [first, others @ ..] => elements_from(alloc, graph, types, given, *first, others),
    }
}
