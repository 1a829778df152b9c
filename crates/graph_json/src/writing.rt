//! The text of a graph.
ghost use Rattle.std.specs.Prelude.{◌≡◌, ◌<◌, codes, [], ◌∷◌, ◌++◌, length, map, Some, slice_get, decimal};
ghost use Rattle.std.specs.Prelude.{IfOk, OnOk};
ghost use Rattle.json.specs.Token.{begin_object, end_object, key, string, number};
ghost use Rattle.serde_json.specs.Data.{member, no_members, object, unsigned, number as number_data};
ghost use Rattle.serde_json.specs.Data.{string as string_data};
ghost use Rattle.graph_json.specs.Nodes.{in_order};
ghost use Rattle.graph_json.specs.WrittenGraph.{text_at, number_or_none, keys_object, paths_data};
ghost use Rattle.graph_json.specs.WrittenGraph.{metadata_data, node_data, nodes_data, contains_data, edge_data};
ghost use Rattle.graph_json.specs.WrittenGraph.{edges_data, graph_data, graph_text, HasAllSmallNumbers};
ghost use Rattle.json_written.specs.Texts.{readable};
ghost use Rattle.serde_json.specs.Read.{read};
ghost use Rattle.resource_graph.specs.NamedGraph.{NamedGraph};
ghost use Rattle.resource_graph.specs.Tables.{properties_at};
ghost use Rattle.graph_json.specs.WrittenTokens.{keys_tokens, names_tokens, node_tokens, edge_tokens, edge_tokens};
ghost use Rattle.json_written.specs.Tokens.{Adds, value_tokens, rest_tokens, member_tokens};

use crate::raw_lists::add_text;
use flux_defs::{List, Text, Vertex};
use json::Writer;
use json_written::{put_number, put_text, readable};
use resource_graph::Graph;
use std::alloc::{AllocError, Global};
use std::collections::BTreeSet;

/// Writes a key with a number, or with -1 for none.
fn put_number_or_none(writer: &mut Writer, name: &str, n: Option<u32>) -> Result<(), AllocError>
    ensures { OnOk result (Adds writer.old writer.new (key name.now ∷ value_tokens (number_or_none n))) }
{
    writer.key(name)?;
    match n {
        Some(n) => writer.u64(n as u64),
        None => writer.i64(-1),
    }
}

/// Writes a key with a number as a text.
fn put_digits(writer: &mut Writer, name: &str, n: u64) -> Result<(), AllocError>
    ensures { OnOk result (Adds writer.old writer.new (key name.now ∷ string (decimal n) ∷ [])) }
{
    writer.key(name)?;
    writer.quoted_u64(n)
}

/// Writes a text as the only member of an object, at a key.
fn put_containment(writer: &mut Writer, name: &str, text: &str) -> Result<(), AllocError>
    ensures { OnOk result (Adds writer.old writer.new
        (key name.now ∷ value_tokens (object (member (codes "containment") (string_data text.now) no_members)))) }
{
    writer.key(name)?;
    writer.begin_object()?;
    put_text(writer, "containment", text)?;
    writer.end_object()?;
    Ok(())
}

/// The properties of a vertex as JSON holds them, in byte order.
fn ordered_properties<'a>(
    alloc: Global,
    properties: &'a [Text],
) -> Result<BTreeSet<&'a str>, AllocError>
    ensures { IfOk result (λ set. map (λ s. s.now) set.keys ≡ in_order (map readable properties.now)) }
{
    let mut set = BTreeSet::new(alloc);
    'texts: for text in properties {
        add_text(&mut set, readable(text.bytes()))?;
    }
    Ok(set)
}

/// Writes the properties of a vertex as the keys of an object.
fn put_properties(alloc: Global, writer: &mut Writer, properties: &[Text]) -> Result<(), AllocError>
    ensures { OnOk result (Adds writer.old writer.new
        (key (codes "properties") ∷ value_tokens (object (keys_object (in_order (map readable properties.now)))))) }
{
    writer.key("properties")?;
    writer.begin_object()?;
    let mut set = ordered_properties(alloc, properties)?;
    put_keys(writer, &mut set)?;
    writer.end_object()?;
    Ok(())
}

/// Writes the keys of an object whose values are empty texts.
fn put_keys(writer: &mut Writer, set: &mut BTreeSet<&str>) -> Result<(), AllocError>
    ensures { OnOk result (Adds writer.old writer.new (keys_tokens (map (λ s. s.now) set.old.keys))) }
{
    'keys: while let Some(name) = set.pop_first() {
        put_text(writer, name, "")?;
    }
    Ok(())
}

/// The basename of a vertex.
fn base_text(graph: &Graph, at: u32) -> &str
    requires { at < length graph.now.resources.vertices }
    ensures { result.now ≡ text_at graph.now.bases at }
{
    readable(graph.base_of(at).bytes())
}

/// The name of a vertex.
fn name_text(graph: &Graph, at: u32) -> &str
    requires { at < length graph.now.resources.vertices }
    ensures { result.now ≡ text_at graph.now.names at }
{
    readable(graph.name_of(at).bytes())
}

/// The unit of a vertex's size.
fn unit_text(graph: &Graph, at: u32) -> &str
    requires { at < length graph.now.resources.vertices }
    ensures { result.now ≡ text_at graph.now.units at }
{
    readable(graph.unit_of(at).bytes())
}

/// The properties of a vertex.
fn properties_of(graph: &Graph, at: u32) -> &[Text]
    requires { at < length graph.now.resources.vertices }
    ensures { result.now ≡ properties_at graph.now at }
{
    graph.properties_of(at).items()
}

/// Writes the metadata of a vertex, but for the properties' place and what follows.
fn put_names(
    alloc: Global,
    writer: &mut Writer,
    graph: &Graph,
    at: u32,
    vertex: &Vertex,
) -> Result<(), AllocError>
    requires { slice_get graph.now.resources.vertices at ≡ Some vertex.now }
    ensures { OnOk result (Adds writer.old writer.new (names_tokens graph.now at vertex.now)) }
{
    put_text(writer, "basename", base_text(graph, at))?;
    put_number_or_none(writer, "id", vertex.id)?;
    put_text(writer, "name", name_text(graph, at))?;
    let path = graph.path_of(alloc, at)?;
    put_containment(writer, "paths", readable(path.bytes()))?;
    Ok(())
}

/// What the vertex's type is called.
fn type_of<'a>(graph: &'a Graph, vertex: &Vertex) -> &'a str
    ensures { result.now ≡ text_at graph.now.resources.kinds vertex.now.kind }
{
    match graph.kind_name(vertex.kind) {
        Some(name) => readable(name.bytes()),
        None => "",
    }
}

/// Writes the metadata of a vertex.
fn put_metadata(
    alloc: Global,
    writer: &mut Writer,
    graph: &Graph,
    at: u32,
    vertex: &Vertex,
) -> Result<(), AllocError>
    requires { slice_get graph.now.resources.vertices at ≡ Some vertex.now }
    ensures { OnOk result (Adds writer.old writer.new (value_tokens (metadata_data graph.now at vertex.now))) }
{
    writer.begin_object()?;
    put_names(alloc, writer, graph, at, vertex)?;
    put_properties(alloc, writer, properties_of(graph, at))?;
    put_number_or_none(writer, "rank", vertex.rank)?;
    put_number(writer, "size", vertex.size)?;
    put_text(writer, "type", type_of(graph, vertex))?;
    put_text(writer, "unit", unit_text(graph, at))?;
    writer.end_object()?;
    Ok(())
}

/// Writes a vertex as a node.
fn put_node(
    alloc: Global,
    writer: &mut Writer,
    graph: &Graph,
    at: u32,
    vertex: &Vertex,
) -> Result<(), AllocError>
    requires { slice_get graph.now.resources.vertices at ≡ Some vertex.now }
    ensures { OnOk result (Adds writer.old writer.new (value_tokens (node_data graph.now at vertex.now))) }
{
    writer.begin_object()?;
    put_digits(writer, "id", at as u64)?;
    writer.key("metadata")?;
    put_metadata(alloc, writer, graph, at, vertex)?;
    writer.end_object()?;
    Ok(())
}

/// Writes the edge from a parent to a vertex.
fn put_edge(writer: &mut Writer, parent: u32, at: u32) -> Result<(), AllocError>
    ensures { OnOk result (Adds writer.old writer.new (value_tokens (edge_data parent at))) }
{
    writer.begin_object()?;
    writer.key("metadata")?;
    writer.begin_object()?;
    put_containment(writer, "name", "contains")?;
    writer.end_object()?;
    put_digits(writer, "source", parent as u64)?;
    put_digits(writer, "target", at as u64)?;
    writer.end_object()?;
    Ok(())
}

/// Writes the vertex with this number as a node.
fn put_node_at(alloc: Global, writer: &mut Writer, graph: &Graph, at: u32) -> Result<(), AllocError>
    ensures { OnOk result (Adds writer.old writer.new (node_tokens graph.now at)) }
{
    match graph.vertices().get(at as usize) {
        Some(vertex) => put_node(alloc, writer, graph, at, vertex),
        None => Ok(()),
    }
}

/// Writes the vertices as nodes, and closes their list.
fn put_nodes(alloc: Global, writer: &mut Writer, graph: &Graph) -> Result<(), AllocError>
    ensures { OnOk result
        (Adds writer.old writer.new (rest_tokens (nodes_data graph.now 0 graph.now.resources.vertices))) }
{
    'nodes: for at in 0..graph.len() {
        put_node_at(alloc, writer, graph, at)?;
    }
    writer.end_array()?;
    Ok(())
}

/// Writes the edges to the vertices that have a parent, and closes their list.
fn put_edges(writer: &mut Writer, graph: &Graph) -> Result<(), AllocError>
    ensures { OnOk result (Adds writer.old writer.new (rest_tokens (edges_data 0 graph.now.resources.vertices))) }
{
    let vertices = graph.vertices().items();
    'edges: for at in 0..graph.len() {
        put_edge_to(writer, vertices[at as usize].parent, at)?;
    }
    writer.end_array()?;
    Ok(())
}

/// Writes the edge to a vertex, if it has a parent.
fn put_edge_to(writer: &mut Writer, parent: Option<u32>, at: u32) -> Result<(), AllocError>
    ensures { OnOk result (Adds writer.old writer.new (edge_tokens parent at)) }
{
    match parent {
        None => Ok(()),
        Some(p) => put_edge(writer, p, at),
    }
}

/// The text of a graph as a graph file (JSON Graph Format, RFC 4): compact JSON, with the keys of each object in byte
/// order. Vertices stand in preorder, and each has all keys that `read_graph` knows, and its path. A text that is no
/// UTF-8, which no graph of a file has, is written as the empty text.
pub fn write_graph(alloc: Global, graph: &Graph) -> Result<Text, AllocError>
    ensures { IfOk result (λ text. text ≡ graph_text graph.now) }
{
    let mut writer = Writer::new(Vec::new(alloc));
    writer.begin_object()?;
    writer.key("graph")?;
    writer.begin_object()?;
    writer.key("edges")?;
    writer.begin_array()?;
    put_edges(&mut writer, graph)?;
    writer.key("nodes")?;
    writer.begin_array()?;
    put_nodes(alloc, &mut writer, graph)?;
    writer.end_object()?;
    writer.end_object()?;
    Ok(Text::of_vec(writer.into_inner()))
}

/// A law: what is written of a graph is JSON (RFC 8259) of the graph's value.
pub fn written_graphs_are_json()
    ensures { (g : NamedGraph) → HasAllSmallNumbers g → read (graph_text g) ≡ Some (graph_data g) }
{}
