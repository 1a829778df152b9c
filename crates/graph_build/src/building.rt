//! A graph from a list of vertices.
ghost use Rattle.std.specs.Prelude.{◌≡◌, map, IfOk, IfErr, OnOk};
ghost use Rattle.resource_graph.specs.Made.{named_graph};
ghost use Rattle.graph_build.specs.Table.{IsFaultless, IsFirstFault};
ghost use Rattle.graph_build.specs.Raw.{KindsApart, IsBuiltFrom, raw_graph, raw_names, shape_of};

use crate::arrange::{arranged, numbered_kinds, numbers_of, shapes_of, texts_of, vertices_of};
use crate::checks::check_raw;
use crate::order::preorder_of;
use crate::raw::{GraphFault, RawVertex};
use flux_defs::{List, Text, Vertex};
use resource_graph::{Graph, Texts};
use std::alloc::{AllocError, Global};

/// What a graph is made of.
#[derive(Drop)]
struct Parts {
    kinds: List<Text>,
    vertices: List<Vertex>,
    texts: Texts,
}

/// What the graph of a list of vertices with which nothing is wrong is made of. The shapes are the vertices without
/// their texts.
fn parts_of(
    alloc: Global,
    kinds: &[Text],
    raw: List<RawVertex>,
    shapes: &[Vertex],
) -> Result<Parts, AllocError>
    requires apart { KindsApart kinds.now }
    requires shapes { shapes.now ≡ map shape_of raw }
    requires fine { IsFaultless (raw_graph kinds.now raw) (raw_names raw) }
    ensures { IfOk result (λ parts. IsBuiltFrom kinds.now raw (named_graph parts.kinds parts.vertices parts.texts)) }
{
    let order = preorder_of(alloc, shapes)?;
    let numbers = numbers_of(alloc, order.as_slice())?;
    let numbering = numbered_kinds(alloc, kinds, shapes, order.as_slice())?;
    let made = vertices_of(
        alloc,
        kinds,
        shapes,
        order.as_slice(),
        numbers.as_slice(),
        numbering.numbers.as_slice(),
    )?;
    let list = arranged(alloc, raw.into_vec(), order.as_slice())?;
    let texts = texts_of(alloc, list)?;
    Ok(Parts {
        kinds: List::of_vec(numbering.kinds),
        vertices: List::of_vec(made),
        texts,
    })
}

/// The graph of a list of vertices with which nothing is wrong.
fn build_faultless(
    alloc: Global,
    kinds: &[Text],
    raw: List<RawVertex>,
    shapes: &[Vertex],
) -> Result<Graph, AllocError>
    requires apart { KindsApart kinds.now }
    requires shapes { shapes.now ≡ map shape_of raw }
    requires fine { IsFaultless (raw_graph kinds.now raw) (raw_names raw) }
    ensures { IfOk result (λ graph. IsBuiltFrom kinds.now raw graph) }
{
    let parts = parts_of(alloc, kinds, raw, shapes)?;
    Graph::of(alloc, parts.kinds, parts.vertices, parts.texts)
}

/// The graph of these types and vertices (RFC 4): vertices in preorder, siblings in the order of the list, types by
/// their first vertices, those without one dropped. Where no node has a rank they get 0, 1, 2 and so on in preorder;
/// the rank of a vertex that is no node is dropped. Or else the first fault of the list, in the order of `GraphFault`,
/// with the least index at which it holds. Near-linear in the vertices.
pub fn build(alloc: Global, kinds: List<Text>, raw: List<RawVertex>) -> Result<Graph, GraphFault>
    requires apart { KindsApart kinds }
    ensures built { IfOk result (λ graph. IsBuiltFrom kinds raw graph) }
    ensures faultless { OnOk result (IsFaultless (raw_graph kinds raw) (raw_names raw)) }
    ensures told { IfErr result (IsFirstFault (raw_graph kinds raw) (raw_names raw)) }
{
    let shapes = shapes_of(alloc, raw.items())?;
    check_raw(alloc, kinds.items(), raw.items(), shapes.as_slice())?;
    Ok(build_faultless(alloc, kinds.items(), raw, shapes.as_slice())?)
}
