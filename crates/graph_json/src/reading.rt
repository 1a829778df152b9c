//! A graph from the bytes of a graph file.
ghost use Rattle.std.specs.Prelude.{◌≡◌, ◌≤◌, ◌↔◌, ◌⊎◌, IsTrue, ℕ, List, codes, [], length, map, Ok, Err, IfOk, IfErr};
ghost use Rattle.std.specs.List.{IsDistinct};
ghost use Rattle.std.specs.Str.{bytes_eq};
ghost use Rattle.std.specs.Result.{result_map_both};
ghost use Rattle.serde_json.specs.Find.{as_object};
ghost use Rattle.json_whole.specs.Values.{view, items_view};
ghost use Rattle.graph_build.specs.Table.{IsFaultless};
ghost use Rattle.resource_graph.specs.NamedGraph.{NamedGraph};
ghost use Rattle.graph_build.specs.Raw.{IsBuiltFrom, raw_graph, raw_names};
ghost use Rattle.json_fields.specs.Values.{object_field, list_field};
ghost use Rattle.graph_json.specs.Nodes.{node_held};
ghost use Rattle.graph_json.specs.Edges.{FileEdge, parents_of};
ghost use Rattle.graph_json.specs.Ids.{ids_of};
ghost use Rattle.graph_json.specs.RawLists.{kinds_of, vertices_of};
ghost use Rattle.graph_json.specs.GraphFile.{lists_in, lists_of, lists_held};
ghost use Rattle.graph_json.specs.GraphText.{IsValueOf, IsGraphText, IsFirstFault, IsToldAs, IsEdgeToldAs};
ghost use Rattle.graph_json.specs.GraphText.{IsFirstRawFault};

use crate::edges::{EdgeFault, join_edges};
use crate::faults::ReadFault;
use crate::field_paths::{FieldPath, FileMisfit, path_text};
use crate::ids::id_table;
use crate::nodes::{NodeFields, NodesFault, nodes_of};
use crate::raw_lists::{kind_table, table_texts, vertices_of};
use flux_defs::MOST_VERTICES;
use graph_build::{GraphFault, build};
use json::Value;
use json_fields::{at_field, list_field, object_field, object_value};
use json_whole::{Room, ValueFault, read_bytes};
use resource_graph::Graph;
use std::alloc::{AllocError, Global};

/// The fault of a field.
fn field_fault(alloc: Global, misfit: FileMisfit) -> ReadFault
    ensures { IsToldAs misfit result }
{
    match path_text(alloc, misfit.field) {
        Ok(path) => ReadFault::Field {
            path,
            fault: misfit.fault,
        },
        Err(_) => ReadFault::Memory,
    }
}

/// The fault of an edge.
fn edge_fault(alloc: Global, fault: EdgeFault) -> ReadFault
    ensures { IsEdgeToldAs fault result }
{
    match fault {
        EdgeFault::Unfit(misfit) => field_fault(alloc, misfit),
        EdgeFault::Wrong { at } => ReadFault::Edge { at },
    }
}

/// The values that a file lists as nodes and as edges.
#[derive(Clone, Copy)]
struct Lists<'v, 'a> {
    nodes: &'v Vec<Value<'a>>,
    edges: &'v Vec<Value<'a>>,
}

/// The lists in `graph`.
fn lists_in<'v, 'a>(graph: &'v Value<'a>) -> Result<Lists<'v, 'a>, FileMisfit>
    ensures { result_map_both lists_held (λ m. m) result ≡ lists_in (view graph.now) }
{
    let nodes = at_field(FieldPath::Nodes, list_field(graph, "nodes"))?;
    let edges = at_field(FieldPath::Edges, list_field(graph, "edges"))?;
    Ok(Lists { nodes, edges })
}

/// The lists of a file.
fn lists_of<'v, 'a>(value: &'v Value<'a>) -> Result<Lists<'v, 'a>, FileMisfit>
    ensures { result_map_both lists_held (λ m. m) result ≡ lists_of (view value.now) }
{
    let whole = at_field(FieldPath::Whole, object_value(value))?;
    let graph = at_field(FieldPath::Graph, object_field(whole, "graph"))?;
    lists_in(graph)
}

/// No parent for each of the nodes.
fn no_parents(alloc: Global, nodes: &[NodeFields]) -> Result<Vec<Option<usize>>, AllocError>
    ensures { IfOk result (λ parents. parents.items ≡ parents_of (ids_of (map node_held nodes.now)) []) }
{
    let mut parents = Vec::with_capacity(alloc, nodes.len())?;
    'nodes: for _node in nodes {
        parents.push(None)?;
    }
    Ok(parents)
}

/// Whether the fault is want of memory.
fn is_memory(fault: &GraphFault) -> bool
    ensures { IsTrue result ↔ (fault.now ≡ GraphFault.Memory) }
{
    matches!(fault, GraphFault::Memory)
}

/// The graph of these nodes with these parents.
fn graph_from(
    alloc: Global,
    nodes: &[NodeFields],
    parents: &[Option<usize>],
) -> Result<Graph, ReadFault>
    requires { (edges : List FileEdge) × (parents.now ≡ parents_of (ids_of (map node_held nodes.now)) edges) }
    ensures built { IfOk result
        (λ graph. (edges : List FileEdge) → parents.now ≡ parents_of (ids_of (map node_held nodes.now)) edges
        → IsBuiltFrom (kinds_of (map node_held nodes.now)) (vertices_of (map node_held nodes.now) edges) graph
        × IsFaultless (raw_graph (kinds_of (map node_held nodes.now))
        (vertices_of (map node_held nodes.now) edges)) (raw_names (vertices_of (map node_held nodes.now) edges))) }
    ensures told { IfErr result
        (λ fault. (edges : List FileEdge) → parents.now ≡ parents_of (ids_of (map node_held nodes.now)) edges
        → IsFirstRawFault (kinds_of (map node_held nodes.now)) (vertices_of (map node_held nodes.now) edges) fault) }
{
    if nodes.len() > MOST_VERTICES {
        return Err(ReadFault::Graph(GraphFault::Vertices {
            found: nodes.len() as u64,
        }));
    }
    let kinds = kind_table(alloc, nodes)?;
    let names = table_texts(alloc, &kinds)?;
    let raw = vertices_of(alloc, &kinds, nodes, parents)?;
    match build(alloc, names, raw) {
        Ok(graph) => Ok(graph),
        Err(fault) => {
            if is_memory(&fault) {
                return Err(ReadFault::Memory);
            }
            Err(ReadFault::Graph(fault))
        }
    }
}

/// The graph of a JSON value.
fn graph_of(alloc: Global, value: &Value) -> Result<Graph, ReadFault>
    ensures graph { IfOk result
        (λ graph. (bytes : List ℕ) → IsValueOf bytes (view value.now) → IsGraphText bytes graph) }
    ensures fault { IfErr result (λ fault. (bytes : List ℕ) → IsValueOf bytes (view value.now) →
        IsFirstFault bytes fault) }
{
    let lists = match lists_of(value) {
        Ok(lists) => lists,
        Err(misfit) => return Err(field_fault(alloc, misfit)),
    };
    let nodes = match nodes_of(alloc, lists.nodes.as_slice()) {
        Ok(nodes) => nodes,
        Err(NodesFault::Misfit(misfit)) => return Err(field_fault(alloc, misfit)),
        Err(NodesFault::Memory) => return Err(ReadFault::Memory),
    };
    let held = nodes.as_slice();
    let ids = match id_table(alloc, held)? {
        Ok(ids) => ids,
        Err(at) => return Err(ReadFault::DuplicateNode { at }),
    };
    let mut parents = no_parents(alloc, held)?;
    match join_edges(&ids, lists.edges.as_slice(), parents.as_mut_slice()) {
        Ok(()) => {}
        Err(fault) => return Err(edge_fault(alloc, fault)),
    }
    graph_from(alloc, held, parents.as_slice())
}

/// The graph of the bytes of a graph file (JSON Graph Format, with RFC 4's keys of a vertex). Sizes are whole numbers,
/// and ranks and ids are at most 4294967294. The fault is the first of `ReadFault` that holds. Bytes that are a file of
/// some graph, as what `write_graph` writes of a graph of a file, give that graph or the answer that no memory is left.
pub fn read_graph(alloc: Global, bytes: &[u8]) -> Result<Graph, ReadFault>
    ensures graph { IfOk result (IsGraphText bytes.now) }
    ensures only { (graph : NamedGraph) →
        IsGraphText bytes.now graph → (result ≡ Ok graph) ⊎ (result ≡ Err ReadFault.Memory) }
    ensures fault { IfErr result (IsFirstFault bytes.now) }
{
    let mut room = Room::new(alloc);
    match read_bytes(alloc, bytes, &mut room) {
        Ok(value) => graph_of(alloc, &value),
        Err(ValueFault::NotJson) => Err(ReadFault::NotJson),
        Err(ValueFault::Memory) => Err(ReadFault::Memory),
    }
}

/// A law: the bytes of a graph file have no fault.
pub fn graph_texts_have_no_fault()
    ensures { (bytes : List ℕ) (graph : NamedGraph) (fault : ReadFault) → IsGraphText bytes graph →
        IsFirstFault bytes fault → fault ≡ ReadFault.Memory }
{}
