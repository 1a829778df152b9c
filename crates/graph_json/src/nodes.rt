//! The nodes of a graph file, as its JSON value lists them.
ghost use Rattle.std.specs.Prelude.{◌≡◌, ◌+◌, IsSome, IsErrOf, Ok, Err, length, map, codes, option_map, IfOk};
ghost use Rattle.std.specs.Option.{option_map_or};
ghost use Rattle.std.specs.List.{list_all};
ghost use Rattle.std.specs.Result.{result_map_both};
ghost use Rattle.flux_defs.specs.declared.limits.TheConstants.{MOST_NAME_BYTES};
ghost use Rattle.serde_json.specs.Find.{as_object};
ghost use Rattle.json_whole.specs.Values.{view, items_view, object_view};
ghost use Rattle.text_forms.specs.Names.{is_name};
ghost use Rattle.json_fields.specs.Values.{object_value, object_field, keys_of};
ghost use Rattle.graph_json.specs.FieldPaths.{at_key, FileMisfit};
ghost use Rattle.graph_json.specs.Nodes.{id_bytes, node_held, default_name, name_given, first_misfit, properties_given};
ghost use Rattle.graph_json.specs.Nodes.{properties_held, node_with, node_of, nodes_of};

use crate::field_paths::{FieldPath, FileMisfit, NodeKey};
use crate::fields::{NodeId, id_field, size_or_one, small_or_none, unit_or_empty};
use flux_defs::{MOST_NAME_BYTES, MOST_TYPE_BYTES};
use json::Value;
use json_fields::{
    Misfit, at_field, given, name_field, name_or, name_value, object_field, object_value,
};
use json_whole::{FieldFault, Object, as_array, as_object};
use std::alloc::{AllocError, AllocFailed, Global};
use text_forms::is_name;

/// How a file gives the properties of a node.
#[derive(Clone, Copy)]
pub(crate) enum Properties<'v, 'a> {
    NoProperties,
    Keys(&'v Object<'a>),
    Members(&'v Vec<Value<'a>>),
}

/// What a file says of a node.
#[derive(Clone, Copy)]
pub(crate) struct NodeFields<'v, 'a> {
    pub id: NodeId<'a>,
    pub kind: &'a str,
    pub base: &'a str,
    pub number: Option<u32>,
    pub name: Option<&'a str>,
    pub rank: Option<u32>,
    pub size: u64,
    pub unit: &'a str,
    pub properties: Properties<'v, 'a>,
}

/// What is read at a key of a node, or its fault there.
fn at_key<T>(at: u64, key: NodeKey, field: Result<T, FieldFault>) -> Result<T, FileMisfit>
    ensures { result ≡ at_key at key field }
{
    at_field(FieldPath::NodeField { at, key }, field)
}

/// How many characters the default name of a node has.
fn default_length(base: &str, number: Option<u32>) -> usize
    ensures { result ≡ length (default_name base.now number) }
{
    match number {
        None => base.len(),
        Some(n) => {
            let mut buffer = itoa::Buffer::new();
            let digits = buffer.format(n);
            base.len() + digits.len()
        }
    }
}

/// The name of a node, `None` for the default one.
fn name_of<'a>(
    metadata: &Value<'a>,
    base: &str,
    number: Option<u32>,
) -> Result<Option<&'a str>, FieldFault>
    ensures { result_map_both (λ name. option_map_or (λ s. s.now) name (default_name base.now number)) (λ e. e) result
        ≡ name_given base.now number (view metadata.now) }
{
    if let Some(found) = given(metadata, "name") {
        let name = name_value(found, MOST_NAME_BYTES)?;
        return Ok(Some(name));
    }
    if default_length(base, number) > MOST_NAME_BYTES {
        return Err(FieldFault::Text);
    }
    Ok(None)
}

/// Whether every key of an object is a name.
fn keys_are_names(members: &Object) -> bool
    ensures { result ≡ list_all (is_name MOST_NAME_BYTES) (keys_of (object_view members.now.items)) }
{
    members
        .iter()
        .all(|member| is_name(member.0.as_bytes(), MOST_NAME_BYTES))
}

/// The first member of a list of properties that is no name.
fn first_misfit(at: u64, members: &[Value]) -> Option<FileMisfit>
    ensures { result ≡ first_misfit at 0 (items_view members.now) }
{
    'members: for (member, value) in members.iter().enumerate() {
        if let Err(fault) = name_value(value, MOST_NAME_BYTES) {
            return Some(Misfit {
                field: FieldPath::Property {
                    at,
                    member: member as u64,
                },
                fault,
            });
        }
    }
    None
}

/// The properties of a node.
fn properties_of<'v, 'a>(at: u64, metadata: &'v Value<'a>) -> Result<Properties<'v, 'a>, FileMisfit>
    ensures { result_map_both properties_held (λ m. m) result ≡ properties_given at (view metadata.now) }
{
    let Some(found) = given(metadata, "properties") else {
        return Ok(Properties::NoProperties);
    };
    if let Some(members) = as_object(found) {
        if !keys_are_names(members) {
            return Err(Misfit {
                field: FieldPath::PropertyKey { at },
                fault: FieldFault::Text,
            });
        }
        return Ok(Properties::Keys(members));
    }
    if let Some(members) = as_array(found) {
        if let Some(fault) = first_misfit(at, members.as_slice()) {
            return Err(fault);
        }
        return Ok(Properties::Members(members));
    }
    Err(Misfit {
        field: FieldPath::NodeField {
            at,
            key: NodeKey::Properties,
        },
        fault: FieldFault::Kind,
    })
}

/// What a file says of a node with this id, by its metadata.
fn fields_with<'v, 'a>(
    at: u64,
    id: NodeId<'a>,
    metadata: &'v Value<'a>,
) -> Result<NodeFields<'v, 'a>, FileMisfit>
    requires { IsSome (as_object (view metadata.now)) }
    ensures { result_map_both node_held (λ m. m) result ≡ node_with at (id_bytes id.entry) (view metadata.now) }
{
    let kind = at_key(
        at,
        NodeKey::TypeName,
        name_field(metadata, "type", MOST_TYPE_BYTES),
    )?;
    let base = at_key(
        at,
        NodeKey::Basename,
        name_or(metadata, "basename", MOST_NAME_BYTES, kind),
    )?;
    let number = at_key(at, NodeKey::Number, small_or_none(metadata, "id"))?;
    let name = at_key(at, NodeKey::Name, name_of(metadata, base, number))?;
    let rank = at_key(at, NodeKey::Rank, small_or_none(metadata, "rank"))?;
    let size = at_key(at, NodeKey::Size, size_or_one(metadata, "size"))?;
    let unit = at_key(at, NodeKey::Unit, unit_or_empty(metadata, "unit"))?;
    let properties = properties_of(at, metadata)?;
    Ok(NodeFields {
        id,
        kind,
        base,
        number,
        name,
        rank,
        size,
        unit,
        properties,
    })
}

/// What a file says of the node with this index.
pub(crate) fn node_of<'v, 'a>(
    at: u64,
    value: &'v Value<'a>,
) -> Result<NodeFields<'v, 'a>, FileMisfit>
    ensures { result_map_both node_held (λ m. m) result ≡ node_of at (view value.now) }
{
    at_field(FieldPath::Node { at }, object_value(value))?;
    let id = at_key(at, NodeKey::Id, id_field(value, "id"))?;
    let metadata = at_key(at, NodeKey::Metadata, object_field(value, "metadata"))?;
    fields_with(at, id, metadata)
}

/// Why the nodes of a file aren't read.
#[derive(Clone, Copy, PartialEq, Eq)]
pub(crate) enum NodesFault {
    Misfit(FileMisfit),
    Memory,
}

impl From<AllocError> for NodesFault {
    ghost use Rattle.std.specs.Prelude.{◌≡◌};
    ghost use Rattle.graph_json.specs.declared.nodes.NodesFault.TheVariants.{Memory};

    ghost from_gives = { λ _ e. e ≡ Memory };

    fn from(_: AllocError) -> NodesFault {
        NodesFault::Memory
    }
}

impl<T: Drop> From<AllocFailed<T>> for NodesFault {
    ghost use Rattle.std.specs.Prelude.{◌≡◌};
    ghost use Rattle.graph_json.specs.declared.nodes.NodesFault.TheVariants.{Memory};

    ghost from_gives = { λ _ e. e ≡ Memory };

    fn from(_: AllocFailed<T>) -> NodesFault {
        NodesFault::Memory
    }
}

/// What a file says of its nodes.
pub(crate) fn nodes_of<'v, 'a>(
    alloc: Global,
    items: &'v [Value<'a>],
) -> Result<Vec<NodeFields<'v, 'a>>, NodesFault>
    ensures read { IfOk result (λ nodes. Ok (map node_held nodes.items) ≡ nodes_of 0 (items_view items.now)) }
    ensures misfit { (m : FileMisfit) → IsErrOf result (NodesFault.Misfit m) →
        nodes_of 0 (items_view items.now) ≡ Err m }
{
    let mut nodes = Vec::with_capacity(alloc, items.len())?;
    'nodes: for (at, item) in items.iter().enumerate() {
        match node_of(at as u64, item) {
            Ok(fields) => nodes.push(fields)?,
            Err(fault) => return Err(NodesFault::Misfit(fault)),
        }
    }
    Ok(nodes)
}
