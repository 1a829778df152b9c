//! The graph of a resource set.
ghost use Rattle.std.specs.Prelude.{◌≡◌, ◌≤◌, ℕ, List, Some, None, length, IfOk, IfErr, OnOk};
ghost use Rattle.json_whole.specs.Values.{view};
ghost use Rattle.json_whole.specs.Whole.{value_of};
ghost use Rattle.resource_set_r.specs.ReadR.{IsSetOf};
ghost use Rattle.resource_set_r.specs.ReadRows.{ranges_in, IsRepeatedRank};
ghost use Rattle.graph_build.specs.Raw.{IsBuiltFrom};
ghost use Rattle.graph_from_r.specs.Properties.{properties_in};
ghost use Rattle.graph_from_r.specs.Vertices.{r_kinds, r_vertices};
ghost use Rattle.graph_from_r.specs.Nodes.{HasHosts, AreNodesOf};
ghost use Rattle.graph_from_r.specs.Names.{IsRepeatedName};
ghost use Rattle.graph_from_r.specs.Graphs.{HasSize, IsSizeFault, IsGraphWith, IsFaultWith, IsGraphOfValue, IsGraphOfR};
ghost use Rattle.graph_from_r.specs.Graphs.{IsFirstFault, AreFairNodes, HasFairRows};

use crate::faults::LoadFault;
use crate::names::repeated_name;
use crate::nodes::{RNode, nodes_of};
use crate::properties::{Property, properties_in};
use crate::sizes::vertex_count;
use crate::vertices::{r_kinds, r_vertices};
use flux_defs::MOST_VERTICES;
use graph_build::{GraphFault, build};
use json::Value;
use json_whole::{Room, ValueFault, read_bytes};
use resource_graph::Graph;
use resource_set_r::{RFault, RSet, read_r_value};
use std::alloc::{AllocError, Global};

/// Checks that some rank is listed, and that there are not too many vertices. Nothing is expanded.
fn check_size(set: &RSet) -> Result<(), LoadFault>
    ensures fits { OnOk result (HasSize set.now) }
    ensures fault { IfErr result (IsSizeFault set.now) }
{
    let count = vertex_count(set.rows.items());
    if count == 1 {
        return Err(LoadFault::NoRanks);
    }
    if count > MOST_VERTICES as u128 {
        return Err(LoadFault::Large);
    }
    Ok(())
}

/// The error of this fault, which is want of memory.
fn memory_fault(_fault: GraphFault) -> AllocError
    requires { _fault ≡ GraphFault.Memory }
{
    AllocError
}

/// The graph of nodes whose names differ. Nothing is wrong with its list of vertices, so it is built unless memory is
/// wanting.
fn graph_of_nodes(alloc: Global, nodes: &[RNode]) -> Result<Graph, AllocError>
    requires fair { AreFairNodes nodes.now }
    requires apart { IsRepeatedName nodes.now None }
    ensures { IfOk result (IsBuiltFrom r_kinds (r_vertices nodes.now)) }
{
    let kinds = r_kinds(alloc)?;
    let vertices = r_vertices(alloc, nodes)?;
    match build(alloc, kinds, vertices) {
        Ok(graph) => Ok(graph),
        Err(fault) => Err(memory_fault(fault)),
    }
}

/// The graph of a set with these properties.
fn graph_with(alloc: Global, set: &RSet, properties: &[Property]) -> Result<Graph, LoadFault>
    requires size { HasSize set.now }
    requires apart { IsRepeatedRank (ranges_in set.now.rows) None }
    requires hosts { HasHosts set.now }
    requires rows { HasFairRows set.now.rows }
    ensures graph { IfOk result (IsGraphWith set.now properties.now) }
    ensures fault { IfErr result (IsFaultWith set.now properties.now) }
{
    let nodes = nodes_of(alloc, set, properties)?;
    match repeated_name(alloc, nodes.items())? {
        Some(rank) => return Err(LoadFault::Name { rank }),
        None => {}
    }
    let graph = graph_of_nodes(alloc, nodes.items())?;
    Ok(graph)
}

/// The graph of a value that is this set.
fn graph_of_set(alloc: Global, value: &Value, set: &RSet) -> Result<Graph, LoadFault>
    requires { IsSetOf (view value.now) set.now }
    ensures graph { IfOk result (IsGraphOfValue (view value.now)) }
    ensures fault { IfErr result (λ fault. (bytes : List ℕ) → value_of bytes ≡ Some (view value.now) →
        IsFirstFault bytes fault) }
{
    check_size(set)?;
    let Some(properties) = properties_in(alloc, value)? else {
        return Err(LoadFault::Property);
    };
    graph_with(alloc, set, properties.items())
}

/// The graph of a value.
fn graph_of_value(alloc: Global, value: &Value) -> Result<Graph, LoadFault>
    ensures graph { IfOk result (IsGraphOfValue (view value.now)) }
    ensures fault { IfErr result (λ fault. (bytes : List ℕ) → value_of bytes ≡ Some (view value.now) →
        IsFirstFault bytes fault) }
{
    match read_r_value(alloc, value) {
        Ok(set) => graph_of_set(alloc, value, &set),
        Err(RFault::Memory) => Err(LoadFault::Memory),
        Err(fault) => Err(LoadFault::R(fault)),
    }
}

/// The graph of the bytes of a resource set R (RFC 20, version 1): the cluster `cluster0`; below it a node for each
/// rank, in rising order; and below each node its cores and then its gpus, in rising order of id. The hosts are those
/// of the ranks in rising order of rank, whatever the order of the elements; without hosts a node is called `node` and
/// its rank. A node has each property whose idset has its rank; other ranks there count for nothing, nor do children of
/// other types. The text is read as JSON once, and ranks and ids are counted before any of them is expanded.
///
/// # Errors
/// The first of these that holds: the bytes are no resource set (`read_r`); it lists no rank; it would give more than
/// 65,536 vertices; its properties are no object from names to idsets; a lesser rank has the host's name. Or no memory
/// is left.
pub fn graph_of_r(alloc: Global, bytes: &[u8]) -> Result<Graph, LoadFault>
    ensures graph { IfOk result (IsGraphOfR bytes.now) }
    ensures fault { IfErr result (IsFirstFault bytes.now) }
{
    let mut room = Room::new(alloc);
    match read_bytes(alloc, bytes, &mut room) {
        Ok(value) => graph_of_value(alloc, &value),
        Err(ValueFault::NotJson) => Err(LoadFault::R(RFault::NotJson)),
        Err(ValueFault::Memory) => Err(LoadFault::Memory),
    }
}
