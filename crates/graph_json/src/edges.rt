//! The edges of a graph file, and whom they make the parent of whom.
ghost use Rattle.std.specs.Prelude.{◌≡◌, ◌<◌, [], ℕ, codes, IsSome, None, Some, Option, List, if◌then◌else◌, length};
ghost use Rattle.std.specs.Prelude.{map, option_map, IfErr, IfSome, OnOk};
ghost use Rattle.std.specs.List.{IsDistinct};
ghost use Rattle.std.specs.Str.{bytes_eq};
ghost use Rattle.std.specs.Result.{result_map_both};
ghost use Rattle.serde_json.specs.Find.{as_object};
ghost use Rattle.json_whole.specs.Values.{view, items_view};
ghost use Rattle.json_fields.specs.Values.{given, object_or_none};
ghost use Rattle.text_table.specs.Tables.{number_of};
ghost use Rattle.graph_json.specs.Nodes.{id_bytes};
ghost use Rattle.graph_json.specs.Edges.{role_in, role_of, name_role, is_contained, is_plain, edge_with, edge_of};
ghost use Rattle.graph_json.specs.Edges.{edges_of, edge_held, joined, counted, parents_of, IsWrongEdge, IsFirstWrong};

use crate::field_paths::{EdgeKey, FieldPath, FileMisfit};
use crate::fields::{NodeId, id_field};
use json::Value;
use json_fields::{at_field, object_or_none, object_value};
use json_whole::{FieldFault, as_str, get};
use text_table::TextTable;

/// What is made of an edge.
#[derive(Clone, Copy, PartialEq, Eq)]
pub(crate) enum Role {
    /// Its source contains its target.
    Counted,
    /// It says the same from the other end.
    Skipped,
    /// It is none of containment.
    Refused,
}

/// What a file says of an edge.
#[derive(Clone, Copy)]
pub(crate) struct EdgeFields<'a> {
    pub source: NodeId<'a>,
    pub target: NodeId<'a>,
    pub role: Role,
}

/// What is wrong with an edge.
#[derive(Clone, Copy, PartialEq, Eq)]
pub(crate) enum EdgeFault {
    /// A field of it.
    Unfit(FileMisfit),
    /// The edge with this index.
    Wrong { at: u64 },
}

/// What is made of an edge, by the text at `name.containment` of its metadata.
fn name_role(metadata: &Value) -> Option<Role>
    ensures { result ≡ name_role (view metadata.now) }
{
    let name = get(metadata, "name")?;
    let direction = as_str(get(name, "containment")?)?;
    if direction == "in" {
        return Some(Role::Skipped);
    }
    Some(Role::Counted)
}

/// Whether the subsystem of the metadata is containment.
fn is_contained(metadata: &Value) -> bool
    ensures { result ≡ is_contained (view metadata.now) }
{
    let Some(subsystem) = get(metadata, "subsystem") else {
        return false;
    };
    let Some(text) = as_str(subsystem) else {
        return false;
    };
    text == "containment"
}

/// Whether the metadata has neither a name nor a subsystem.
fn is_plain(metadata: &Value) -> bool
    ensures { result ≡ is_plain (view metadata.now) }
{
    get(metadata, "name").is_none() && get(metadata, "subsystem").is_none()
}

/// What is made of an edge with this metadata.
fn role_in(metadata: &Value) -> Role
    ensures { result ≡ role_in (view metadata.now) }
{
    if let Some(role) = name_role(metadata) {
        return role;
    }
    if is_contained(metadata) || is_plain(metadata) {
        return Role::Counted;
    }
    Role::Refused
}

/// What is made of an edge.
fn role_of(edge: &Value) -> Result<Role, FieldFault>
    ensures { result ≡ result_map_both role_of (λ e. e) (object_or_none (given (codes "metadata") (view edge.now))) }
{
    match object_or_none(edge, "metadata") {
        Ok(Some(metadata)) => Ok(role_in(metadata)),
        Ok(None) => Ok(Role::Counted),
        Err(fault) => Err(fault),
    }
}

/// What a file says of the edge with this index.
fn edge_of<'a>(at: u64, value: &Value<'a>) -> Result<EdgeFields<'a>, FileMisfit>
    ensures { result_map_both edge_held (λ m. m) result ≡ edge_of at (view value.now) }
{
    at_field(FieldPath::Edge { at }, object_value(value))?;
    let source = at_field(
        FieldPath::EdgeField {
            at,
            key: EdgeKey::Source,
        },
        id_field(value, "source"),
    )?;
    let target = at_field(
        FieldPath::EdgeField {
            at,
            key: EdgeKey::Target,
        },
        id_field(value, "target"),
    )?;
    let role = at_field(
        FieldPath::EdgeField {
            at,
            key: EdgeKey::EdgeMetadata,
        },
        role_of(value),
    )?;
    Ok(EdgeFields {
        source,
        target,
        role,
    })
}

/// The index of the node with this id.
fn number_of(ids: &TextTable, id: NodeId) -> Option<usize>
    ensures value { result ≡ number_of ids.now (id_bytes id.entry) }
    ensures within { IfSome result (λ index. index < length ids.now) }
{
    match id {
        NodeId::Written(text) => ids.number_of(text.as_bytes()),
        NodeId::Numbered(number) => {
            let mut buffer = itoa::Buffer::new();
            let digits = buffer.format(number);
            ids.number_of(digits.as_bytes())
        }
    }
}

/// Notes the parent that an edge gives its target; false where the edge is wrong.
fn join(ids: &TextTable, parents: &mut [Option<usize>], edge: EdgeFields) -> bool
    requires { length parents.old ≡ length ids.now }
    ensures { joined ids.now parents.old (edge_held edge.entry) ≡ (if result then Some parents.new else None) }
{
    match edge.role {
        Role::Skipped => true,
        Role::Refused => false,
        Role::Counted => {
            let Some(parent) = number_of(ids, edge.source) else {
                return false;
            };
            let Some(child) = number_of(ids, edge.target) else {
                return false;
            };
            if parents[child].is_some() {
                return false;
            }
            parents[child] = Some(parent);
            true
        }
    }
}

/// Notes by node the index of its parent, or tells the first edge that is wrong.
pub(crate) fn join_edges(
    ids: &TextTable,
    edges: &[Value],
    parents: &mut [Option<usize>],
) -> Result<(), EdgeFault>
    requires none { parents.old ≡ parents_of ids.now [] }
    requires distinct { IsDistinct bytes_eq ids.now }
    ensures joined { OnOk result (parents.new ≡ parents_of ids.now (counted (edges_of 0 (items_view edges.now)))) }
    ensures right { OnOk result ((k : ℕ) → IsWrongEdge ids.now (edges_of 0 (items_view edges.now)) k → ⊥) }
    ensures wrong { IfErr result (IsFirstWrong ids.now (edges_of 0 (items_view edges.now))) }
{
    'edges: for (at, value) in edges.iter().enumerate() {
        match edge_of(at as u64, value) {
            Err(fault) => return Err(EdgeFault::Unfit(fault)),
            Ok(edge) => {
                if !join(ids, parents, edge) {
                    return Err(EdgeFault::Wrong { at: at as u64 });
                }
            }
        }
    }
    Ok(())
}
