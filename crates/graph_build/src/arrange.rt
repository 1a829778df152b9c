//! A list of vertices, arranged in preorder.
ghost use Rattle.std.specs.Prelude.{◌≡◌, ℕ, ◌<◌, ◌≤◌, [], cond, length, map, slice_get, slice_index, Some, IfOk, OnOk};
ghost use Rattle.flux_defs.specs.declared.limits.TheConstants.{MOST_VERTICES, MOST_TYPES};
ghost use Rattle.std.specs.Option.{option_map};
ghost use Rattle.resource_graph.specs.Chains.{KnowsParents};
ghost use Rattle.graph_build.specs.Orders.{IsOrderOf};
ghost use Rattle.resource_graph.specs.Preorder.{KnowsKinds};
ghost use Rattle.graph_build.specs.Raw.{shape_of, is_node_of, some_ranked};
ghost use Rattle.graph_build.specs.Arranged.{HasNumbers, IsArrangedList, HasTexts, IsMadeFrom, HasMadeTo};
ghost use Rattle.graph_build.specs.Arranged.{IsKindNumbering, AreUnused, AddsKind, HasKindNumbers};

use crate::raw::RawVertex;
use flux_defs::{List, Text, Vertex};
use resource_graph::Texts;
use std::alloc::{AllocError, Global};

/// The vertices without their texts.
pub(crate) fn shapes_of(alloc: Global, raw: &[RawVertex]) -> Result<Vec<Vertex>, AllocError>
    ensures { IfOk result (λ shapes. shapes.items ≡ map shape_of raw.now) }
{
    let mut shapes = Vec::with_capacity(alloc, raw.len())?;
    for vertex in raw {
        shapes.push(Vertex {
            kind: vertex.kind,
            size: vertex.size,
            parent: vertex.parent,
            id: vertex.id,
            rank: vertex.rank,
        })?;
    }
    Ok(shapes)
}

/// By index in the list, the number in the order.
pub(crate) fn numbers_of(alloc: Global, order: &[u32]) -> Result<Vec<u32>, AllocError>
    requires few { length order.now ≤ MOST_VERTICES }
    requires indices { IsOrderOf (length order.now) order.now }
    ensures { IfOk result (λ numbers. HasNumbers order.now (length order.now) numbers.items) }
{
    let mut numbers = vec![in alloc; 0u32; order.len()]?;
    for number in 0..order.len() {
        numbers[order[number] as usize] = number as u32;
    }
    Ok(numbers)
}

/// The raw vertices in this order. Each is moved once.
pub(crate) fn arranged(
    alloc: Global,
    raw: Vec<RawVertex>,
    order: &[u32],
) -> Result<Vec<RawVertex>, AllocError>
    requires { IsOrderOf (length raw.items) order.now }
    ensures { IfOk result (λ list. IsArrangedList raw.items order.now (length order.now) list.items) }
{
    let mut slots = slots_of(alloc, raw)?;
    let mut list = Vec::with_capacity(alloc, order.len())?;
    for at in order {
        let slot = slots[*at as usize].take();
        let Some(vertex) = slot else { unreachable!() };
        list.push(vertex)?;
    }
    Ok(list)
}

/// Each vertex in a slot that it can be taken from.
fn slots_of(alloc: Global, raw: Vec<RawVertex>) -> Result<Vec<Option<RawVertex>>, AllocError>
    ensures { IfOk result (λ slots. slots.items ≡ map (λ r. Some r) raw.items) }
{
    let mut slots = Vec::with_capacity(alloc, raw.len())?;
    for vertex in raw {
        slots.push(Some(vertex))?;
    }
    Ok(slots)
}

/// The texts of the vertices, by kind of text.
pub(crate) fn texts_of(alloc: Global, list: Vec<RawVertex>) -> Result<Texts, AllocError>
    ensures { IfOk result (HasTexts list.items) }
{
    let mut names = Vec::with_capacity(alloc, list.len())?;
    let mut bases = Vec::with_capacity(alloc, list.len())?;
    let mut units = Vec::with_capacity(alloc, list.len())?;
    let mut properties = Vec::with_capacity(alloc, list.len())?;
    for vertex in list {
        names.push(vertex.name)?;
        bases.push(vertex.base)?;
        units.push(vertex.unit)?;
        properties.push(vertex.properties)?;
    }
    Ok(Texts {
        names: List::of_vec(names),
        bases: List::of_vec(bases),
        units: List::of_vec(units),
        properties: List::of_vec(properties),
    })
}

/// The types that are used, in the order of their first vertices, and by old number the new one.
#[derive(Drop)]
pub(crate) struct KindNumbering {
    pub kinds: Vec<Text>,
    pub numbers: Vec<Option<u32>>,
}

/// Numbers the types by their first vertices in this order.
pub(crate) fn numbered_kinds(
    alloc: Global,
    kinds: &[Text],
    vertices: &[Vertex],
    order: &[u32],
) -> Result<KindNumbering, AllocError>
    requires few_kinds { length kinds.now ≤ MOST_TYPES }
    requires indices { IsOrderOf (length vertices.now) order.now }
    requires known { KnowsKinds vertices.now (length kinds.now) }
    ensures { IfOk result (IsKindNumbering kinds.now vertices.now order.now (length order.now)) }
{
    let mut numbering = no_numbers(alloc, kinds)?;
    for at in order {
        let kind = vertices[*at as usize].kind as usize;
        use_kind(alloc, kinds, &mut numbering, kind)?;
    }
    Ok(numbering)
}

/// No type is used yet.
fn no_numbers(alloc: Global, kinds: &[Text]) -> Result<KindNumbering, AllocError>
    ensures none { IfOk result (λ numbering. numbering.kinds.items ≡ []) }
    ensures unused { IfOk result (λ numbering. AreUnused (length kinds.now) numbering.numbers.items) }
{
    let mut numbers = Vec::with_capacity(alloc, kinds.len())?;
    while numbers.len() < kinds.len() {
        numbers.push(None)?;
    }
    Ok(KindNumbering {
        kinds: Vec::with_capacity(alloc, kinds.len())?,
        numbers,
    })
}

/// Gives the type the next number, where it has none.
fn use_kind(
    alloc: Global,
    kinds: &[Text],
    numbering: &mut KindNumbering,
    kind: usize,
) -> Result<(), AllocError>
    requires within { kind < length kinds.now }
    requires whole { length numbering.old.numbers.items ≡ length kinds.now }
    requires few { length numbering.old.kinds.items ≤ MOST_TYPES }
    ensures { OnOk result (AddsKind kinds.now kind numbering.old numbering.new) }
{
    if numbering.numbers[kind].is_some() {
        return Ok(());
    }
    let name = kinds[kind].copy(alloc)?;
    let number = numbering.kinds.len() as u32;
    numbering.kinds.push(name)?;
    numbering.numbers[kind] = Some(number);
    Ok(())
}

/// The vertices in this order, with the numbers of the graph.
pub(crate) fn vertices_of(
    alloc: Global,
    kinds: &[Text],
    vertices: &[Vertex],
    order: &[u32],
    numbers: &[u32],
    kind_numbers: &[Option<u32>],
) -> Result<Vec<Vertex>, AllocError>
    requires few { length vertices.now ≤ MOST_VERTICES }
    requires indices { IsOrderOf (length vertices.now) order.now }
    requires parents { KnowsParents vertices.now }
    requires whole { length numbers.now ≡ length vertices.now }
    requires numbered { HasKindNumbers vertices.now kind_numbers.now }
    ensures { IfOk result (λ made. HasMadeTo kinds.now vertices.now order.now numbers.now kind_numbers.now
        (length order.now) made.items) }
{
    let ranked = ranks_given(kinds, vertices);
    let mut nodes = 0u32;
    let mut made = Vec::with_capacity(alloc, order.len())?;
    for at in order {
        let vertex = vertices[*at as usize];
        let node = is_node(kinds, &vertex);
        let rank = rank_for(node, ranked, vertex.rank, nodes);
        made.push(renumbered(vertex, numbers, kind_numbers, rank))?;
        nodes += one_if(node);
    }
    Ok(made)
}

/// The vertex with the numbers of the graph.
fn renumbered(
    vertex: Vertex,
    numbers: &[u32],
    kind_numbers: &[Option<u32>],
    rank: Option<u32>,
) -> Vertex
    requires parent { (p : ℕ) → vertex.parent ≡ Some p → p < length numbers.now }
    requires kind { (j : ℕ) × (slice_get kind_numbers.now vertex.kind ≡ Some (Some j)) }
    ensures made { IsMadeFrom numbers.now kind_numbers.now vertex result }
    ensures ranked { result.rank ≡ rank }
{
    let Some(kind) = kind_numbers[vertex.kind as usize] else {
        unreachable!()
    };
    Vertex {
        kind,
        size: vertex.size,
        parent: number_of_parent(vertex.parent, numbers),
        id: vertex.id,
        rank,
    }
}

/// The number of the parent with an index.
fn number_of_parent(parent: Option<u32>, numbers: &[u32]) -> Option<u32>
    requires { (p : ℕ) → parent ≡ Some p → p < length numbers.now }
    ensures { result ≡ option_map (slice_index numbers.now) parent }
{
    match parent {
        Some(at) => Some(numbers[at as usize]),
        None => None,
    }
}

/// How many a vertex adds to the nodes before the next one.
fn one_if(node: bool) -> u32
    ensures { result ≡ cond node 1 0 }
{
    if node { 1 } else { 0 }
}

/// The rank of a vertex that has this many nodes before it.
fn rank_for(node: bool, ranked: bool, own: Option<u32>, nodes: u32) -> Option<u32>
    ensures { result ≡ cond node (cond ranked own (Some nodes)) None }
{
    if !node {
        return None;
    }
    if ranked {
        return own;
    }
    Some(nodes)
}

/// Whether the vertex is of the type node.
pub(crate) fn is_node(kinds: &[Text], vertex: &Vertex) -> bool
    ensures { result ≡ is_node_of kinds.now vertex.now }
{
    match kinds.get(vertex.kind as usize) {
        Some(name) => name.bytes() == b"node".as_slice(),
        None => false,
    }
}

/// Whether some node has a rank.
pub(crate) fn ranks_given(kinds: &[Text], vertices: &[Vertex]) -> bool
    ensures { result ≡ some_ranked kinds.now vertices.now }
{
    for vertex in vertices {
        if vertex.rank.is_some() && is_node(kinds, vertex) {
            return true;
        }
    }
    false
}
