//! The raw vertices that the nodes and edges of a graph file are.
ghost use Rattle.std.specs.Prelude.{◌≡◌, ◌<◌, ◌≤◌, ℕ, Some, slice_get, unwrap_or, length, map, IfOk, IfSome, OnOk};
ghost use Rattle.flux_defs.specs.declared.limits.TheConstants.{MOST_VERTICES};
ghost use Rattle.std.specs.Ordering.{nat_cmp};
ghost use Rattle.std.specs.Cmp.Lexicographic.{slice_cmp};
ghost use Rattle.std.specs.BTreeSet.{insert_key};
ghost use Rattle.graph_json.specs.Nodes.{node_held, name_held, properties_held, texts_in, in_order};
ghost use Rattle.json_fields.specs.Values.{keys_of};
ghost use Rattle.text_table.specs.Tables.{number_of};
ghost use Rattle.graph_json.specs.Edges.{parents_of, counted};
ghost use Rattle.graph_json.specs.Ids.{ids_of};
ghost use Rattle.graph_json.specs.RawLists.{kinds_of, vertex_of, vertices_of, zip_with};
ghost use Rattle.text_table.specs.Tables.{with_text};
ghost use Rattle.json_whole.specs.Values.{items_view, object_view, entries_view};

use crate::nodes::{NodeFields, Properties};
use flux_defs::{List, Text};
use graph_build::RawVertex;
use json::Value;
use json_whole::{Object, as_str, in_order};
use std::alloc::{AllocError, Global};
use std::collections::{BTreeMap, BTreeSet};
use text_forms::push_decimal;
use text_table::TextTable;

/// The keys of a map, in its order, as texts.
fn key_texts(alloc: Global, map: &BTreeMap<&str, &Value>) -> Result<List<Text>, AllocError>
    ensures { IfOk result (λ list. list ≡ keys_of (entries_view map.now.entries)) }
{
    let mut list = Vec::with_capacity(alloc, map.len())?;
    'keys: for key in map.keys() {
        list.push(Text::of(alloc, key.as_bytes())?)?;
    }
    Ok(List::of_vec(list))
}

/// The keys of an object in byte order, each once, as texts.
fn keys_of(alloc: Global, members: &Object) -> Result<List<Text>, AllocError>
    ensures { IfOk result (λ list. list ≡ keys_of (object_view members.now.items)) }
{
    let map = in_order(alloc, members)?;
    key_texts(alloc, &map)
}

/// Adds a text to an ordered set, unless it is there.
pub(crate) fn add_text<'a>(set: &mut BTreeSet<&'a str>, text: &'a str) -> Result<(), AllocError>
    ensures { OnOk result
        (map (λ s. s.now) set.new.keys ≡ insert_key (slice_cmp nat_cmp) (map (λ s. s.now) set.old.keys) text.now) }
{
    set.insert(text)?;
    Ok(())
}

/// The texts of a list, in byte order, each once.
fn texts_in_order(alloc: Global, items: &[Value]) -> Result<List<Text>, AllocError>
    ensures { IfOk result (λ list. list ≡ in_order (texts_in (items_view items.now))) }
{
    let mut set = BTreeSet::new(alloc);
    'items: for item in items {
        if let Some(text) = as_str(item) {
            add_text(&mut set, text)?;
        }
    }
    let mut list = Vec::with_capacity(alloc, set.len())?;
    'texts: while let Some(text) = set.pop_first() {
        list.push(Text::of(alloc, text.as_bytes())?)?;
    }
    Ok(List::of_vec(list))
}

/// The properties of a node, in byte order, each once.
fn properties_list(alloc: Global, properties: Properties) -> Result<List<Text>, AllocError>
    ensures { IfOk result (λ list. list ≡ properties_held properties.entry) }
{
    match properties {
        Properties::NoProperties => Ok(List::new(alloc)),
        Properties::Keys(members) => keys_of(alloc, members),
        Properties::Members(items) => texts_in_order(alloc, items.as_slice()),
    }
}

/// The types of the nodes, in the order of their first nodes.
pub(crate) fn kind_table(alloc: Global, nodes: &[NodeFields]) -> Result<TextTable, AllocError>
    ensures { IfOk result (λ table. table ≡ kinds_of (map node_held nodes.now)) }
{
    let mut table = TextTable::new(alloc);
    'nodes: for node in nodes {
        table.add(alloc, node.kind.as_bytes())?;
    }
    Ok(table)
}

/// The texts of a table, in its order.
pub(crate) fn table_texts(alloc: Global, table: &TextTable) -> Result<List<Text>, AllocError>
    ensures { IfOk result (λ list. list ≡ table.now) }
{
    let mut list = Vec::with_capacity(alloc, table.len())?;
    'texts: for text in table.texts() {
        list.push(Text::of(alloc, text.as_slice())?)?;
    }
    Ok(List::of_vec(list))
}

/// The raw vertex of a node, among these types and with this parent.
fn vertex_of(
    alloc: Global,
    kinds: &TextTable,
    node: &NodeFields,
    parent: Option<usize>,
) -> Result<RawVertex, AllocError>
    requires few { length kinds.now ≤ MOST_VERTICES }
    requires within { IfSome parent (λ p. p < MOST_VERTICES) }
    ensures { IfOk result (λ vertex. vertex ≡ vertex_of kinds.now (node_held node.now) parent) }
{
    let kind = kind_number(kinds, node.kind);
    let base = Text::of(alloc, node.base.as_bytes())?;
    let name = name_text(alloc, node)?;
    let unit = Text::of(alloc, node.unit.as_bytes())?;
    let properties = properties_list(alloc, node.properties)?;
    Ok(RawVertex {
        kind,
        base,
        name,
        id: node.number,
        rank: node.rank,
        size: node.size,
        unit,
        properties,
        parent: small_index(parent),
    })
}

/// The number of a type.
fn kind_number(kinds: &TextTable, kind: &str) -> u32
    requires { length kinds.now ≤ MOST_VERTICES }
    ensures { result ≡ unwrap_or (number_of kinds.now kind.now) 0 }
{
    match kinds.number_of(kind.as_bytes()) {
        Some(number) => number as u32,
        None => 0,
    }
}

/// An index that fits 32 bits.
fn small_index(index: Option<usize>) -> Option<u32>
    requires { IfSome index (λ p. p < MOST_VERTICES) }
    ensures { result ≡ index }
{
    match index {
        Some(p) => Some(p as u32),
        None => None,
    }
}

/// The name of a node, or its default.
fn name_text(alloc: Global, node: &NodeFields) -> Result<Text, AllocError>
    ensures { IfOk result (λ name. name ≡ name_held node.now) }
{
    if let Some(name) = node.name {
        return Text::of(alloc, name.as_bytes());
    }
    let mut name = Vec::from_slice(alloc, node.base.as_bytes())?;
    if let Some(number) = node.number {
        push_decimal(&mut name, u64::from(number))?;
    }
    Ok(Text::of_vec(name))
}

/// The raw vertices of the nodes, with these parents.
pub(crate) fn vertices_of(
    alloc: Global,
    kinds: &TextTable,
    nodes: &[NodeFields],
    parents: &[Option<usize>],
) -> Result<List<RawVertex>, AllocError>
    requires few { length kinds.now ≤ MOST_VERTICES }
    requires as_many { length parents.now ≡ length nodes.now }
    requires within { (i p : ℕ) → slice_get parents.now i ≡ Some (Some p) → p < MOST_VERTICES }
    ensures { IfOk result (λ list. list ≡ zip_with (vertex_of kinds.now) (map node_held nodes.now) parents.now) }
{
    let mut list = Vec::with_capacity(alloc, nodes.len())?;
    'nodes: for at in 0..nodes.len() {
        list.push(vertex_of(alloc, kinds, &nodes[at], parents[at])?)?;
    }
    Ok(List::of_vec(list))
}
