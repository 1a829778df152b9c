//! The checks of a list of vertices, in the order of the table of faults.
ghost use Rattle.std.specs.Prelude.{◌≡◌, ◌≤◌, length, map, OnOk, IfErr};
ghost use Rattle.flux_defs.specs.declared.limits.TheConstants.{MOST_VERTICES};
ghost use Rattle.graph_build.specs.Checks.{graph_in};
ghost use Rattle.graph_build.specs.Raw.{KindsApart, raw_graph, raw_names, shape_of};
ghost use Rattle.graph_build.specs.Table.{link_rows, chain_rows, size_rows, device_rows, vertex_rows, name_rows};
ghost use Rattle.graph_build.specs.Table.{rank_rows, table};
ghost use Rattle.graph_build.specs.Table.{NoneHolds, IsFirstIn};

use crate::above::{first_loose, first_nested, first_parent_pool, house_table};
use crate::doubles::{first_bad_rank, first_double_id, first_double_name};
use crate::endless::{first_deep, first_endless};
use crate::links::{first_root, first_unknown_kind, first_unknown_parent, second_root};
use crate::own::{first_large, first_reserved, first_sized, first_unnamed};
use crate::raw::{GraphFault, RawVertex};
use flux_defs::{MOST_TYPES, MOST_VERTICES, Text, Vertex};
use std::alloc::Global;

/// How many there are, the parents, the kinds and the root.
fn check_links(kinds: &[Text], vertices: &[Vertex]) -> Result<(), GraphFault>
    ensures ok { OnOk result (NoneHolds (link_rows (graph_in kinds.now vertices.now))) }
    ensures err { IfErr result (IsFirstIn (link_rows (graph_in kinds.now vertices.now))) }
{
    if vertices.len() > MOST_VERTICES {
        return Err(GraphFault::Vertices {
            found: vertices.len() as u64,
        });
    }
    if kinds.len() > MOST_TYPES {
        return Err(GraphFault::Kinds {
            found: kinds.len() as u64,
        });
    }
    if let Some(vertex) = first_unknown_parent(vertices) {
        return Err(GraphFault::UnknownParent {
            vertex: vertex as u32,
        });
    }
    if let Some(vertex) = first_unknown_kind(kinds, vertices) {
        return Err(GraphFault::UnknownKind {
            vertex: vertex as u32,
        });
    }
    let Some(root) = first_root(vertices) else {
        return Err(GraphFault::NoRoot);
    };
    if let Some(vertex) = second_root(vertices, root) {
        return Err(GraphFault::ManyRoots {
            vertex: vertex as u32,
        });
    }
    Ok(())
}

/// The chains from the root down.
fn check_chains(alloc: Global, kinds: &[Text], vertices: &[Vertex]) -> Result<(), GraphFault>
    requires { NoneHolds (link_rows (graph_in kinds.now vertices.now)) }
    ensures ok { OnOk result (NoneHolds (chain_rows (graph_in kinds.now vertices.now))) }
    ensures err { IfErr result (IsFirstIn (chain_rows (graph_in kinds.now vertices.now))) }
{
    if let Some(vertex) = first_endless(alloc, vertices)? {
        return Err(GraphFault::Cycle {
            vertex: vertex as u32,
        });
    }
    if let Some(vertex) = first_deep(alloc, vertices)? {
        return Err(GraphFault::Depth {
            vertex: vertex as u32,
        });
    }
    if let Some(vertex) = first_nested(alloc, vertices)? {
        return Err(GraphFault::NestedKind {
            vertex: vertex as u32,
        });
    }
    Ok(())
}

/// The types' names, the pools and the sizes.
fn check_sizes(alloc: Global, kinds: &[Text], vertices: &[Vertex]) -> Result<(), GraphFault>
    requires { NoneHolds (link_rows (graph_in kinds.now vertices.now)) }
    ensures ok { OnOk result (NoneHolds (size_rows (graph_in kinds.now vertices.now))) }
    ensures err { IfErr result (IsFirstIn (size_rows (graph_in kinds.now vertices.now))) }
{
    if let Some(vertex) = first_reserved(kinds, vertices) {
        return Err(GraphFault::ReservedKind {
            vertex: vertex as u32,
        });
    }
    if let Some(vertex) = first_parent_pool(alloc, kinds, vertices)? {
        return Err(GraphFault::PoolWithChild {
            vertex: vertex as u32,
        });
    }
    if let Some(vertex) = first_sized(kinds, vertices) {
        return Err(GraphFault::Sized {
            vertex: vertex as u32,
        });
    }
    if let Some(vertex) = first_large(vertices) {
        return Err(GraphFault::Large {
            vertex: vertex as u32,
        });
    }
    Ok(())
}

/// The nodes above cores and gpus, and their ids.
fn check_devices(alloc: Global, kinds: &[Text], vertices: &[Vertex]) -> Result<(), GraphFault>
    requires apart { KindsApart kinds.now }
    requires links { NoneHolds (link_rows (graph_in kinds.now vertices.now)) }
    requires chains { NoneHolds (chain_rows (graph_in kinds.now vertices.now)) }
    ensures ok { OnOk result (NoneHolds (device_rows (graph_in kinds.now vertices.now))) }
    ensures err { IfErr result (IsFirstIn (device_rows (graph_in kinds.now vertices.now))) }
{
    let houses = house_table(alloc, kinds, vertices)?;
    if let Some(vertex) = first_loose(kinds, vertices, houses.as_slice()) {
        return Err(GraphFault::Loose {
            vertex: vertex as u32,
        });
    }
    if let Some(vertex) = first_unnamed(kinds, vertices) {
        return Err(GraphFault::NoId {
            vertex: vertex as u32,
        });
    }
    if let Some(vertex) = first_double_id(alloc, kinds, vertices, houses.as_slice())? {
        return Err(GraphFault::DuplicateId {
            vertex: vertex as u32,
        });
    }
    Ok(())
}

/// All checks that need no name and no rank.
fn check_vertices(alloc: Global, kinds: &[Text], vertices: &[Vertex]) -> Result<(), GraphFault>
    requires apart { KindsApart kinds.now }
    ensures ok { OnOk result (NoneHolds (vertex_rows (graph_in kinds.now vertices.now))) }
    ensures err { IfErr result (IsFirstIn (vertex_rows (graph_in kinds.now vertices.now))) }
{
    check_links(kinds, vertices)?;
    check_chains(alloc, kinds, vertices)?;
    check_sizes(alloc, kinds, vertices)?;
    check_devices(alloc, kinds, vertices)
}

/// The names of siblings and of nodes.
fn check_names(alloc: Global, kinds: &[Text], raw: &[RawVertex]) -> Result<(), GraphFault>
    requires { length raw.now ≤ MOST_VERTICES }
    ensures ok { OnOk result (NoneHolds (name_rows (raw_graph kinds.now raw.now) (raw_names raw.now))) }
    ensures err { IfErr result (IsFirstIn (name_rows (raw_graph kinds.now raw.now) (raw_names raw.now))) }
{
    match first_double_name(alloc, kinds, raw)? {
        Some(vertex) => Err(GraphFault::DuplicateName {
            vertex: vertex as u32,
        }),
        None => Ok(()),
    }
}

/// The ranks of nodes.
fn check_ranks(alloc: Global, kinds: &[Text], vertices: &[Vertex]) -> Result<(), GraphFault>
    requires { length vertices.now ≤ MOST_VERTICES }
    ensures ok { OnOk result (NoneHolds (rank_rows (graph_in kinds.now vertices.now))) }
    ensures err { IfErr result (IsFirstIn (rank_rows (graph_in kinds.now vertices.now))) }
{
    match first_bad_rank(alloc, kinds, vertices)? {
        Some(vertex) => Err(GraphFault::Ranks {
            vertex: vertex as u32,
        }),
        None => Ok(()),
    }
}

/// All checks. The shapes are the vertices without their texts.
pub(crate) fn check_raw(
    alloc: Global,
    kinds: &[Text],
    raw: &[RawVertex],
    shapes: &[Vertex],
) -> Result<(), GraphFault>
    requires apart { KindsApart kinds.now }
    requires shapes { shapes.now ≡ map shape_of raw.now }
    ensures ok { OnOk result (NoneHolds (table (raw_graph kinds.now raw.now) (raw_names raw.now))) }
    ensures err { IfErr result (IsFirstIn (table (raw_graph kinds.now raw.now) (raw_names raw.now))) }
{
    check_vertices(alloc, kinds, shapes)?;
    check_names(alloc, kinds, raw)?;
    check_ranks(alloc, kinds, shapes)
}
