//! The nodes that a resource set names.
ghost use Rattle.std.specs.Prelude.{◌≡◌, ◌<◌, None, length, map, IfOk};
ghost use Rattle.std.specs.List.{AllByRecursion};
ghost use Rattle.idset_text.specs.Hostlists.{names_of};
ghost use Rattle.resource_set_r.specs.ReadRows.{ranges_in, IsRepeatedRank};
ghost use Rattle.graph_from_r.specs.Nodes.{plain_name, names_for, HasHosts, node_at, nodes_at, AreNodesOf};
ghost use Rattle.graph_from_r.specs.Graphs.{HasSize, HasFairRows, AreFairNodes};

use crate::hosts::names_of;
use crate::ids::ids_of;
use crate::places::{Place, places_of};
use crate::properties::{Property, names_at};
use flux_defs::{List, Text};
use resource_set_r::{RRow, RSet};
use std::alloc::{AllocError, Global};
use text_forms::{push, push_decimal};

/// A node: its rank and its name, the ids of its cores and of its gpus, and its properties.
#[derive(Drop)]
pub struct RNode {
    pub rank: u32,
    pub name: Text,
    pub cores: List<u32>,
    pub gpus: List<u32>,
    pub properties: List<Text>,
}

/// The name of a node whose host isn't given.
fn plain_name(alloc: Global, rank: u32) -> Result<Text, AllocError>
    ensures { IfOk result (λ name. name ≡ plain_name rank) }
{
    let mut name = Vec::from_slice(alloc, b"node")?;
    push_decimal(&mut name, u64::from(rank))?;
    Ok(Text::of_vec(name))
}

/// The names of nodes whose hosts aren't given.
fn plain_names(alloc: Global, places: &[Place]) -> Result<List<Text>, AllocError>
    ensures { IfOk result (λ names. names ≡ map (λ p. plain_name p.rank) places.now) }
{
    let mut names = Vec::with_capacity(alloc, places.len())?;
    'places: for place in places {
        push(&mut names, plain_name(alloc, place.rank)?)?;
    }
    Ok(List::of_vec(names))
}

/// The names of the nodes: those of the hosts, or where there are none the plain ones.
fn names_for(alloc: Global, set: &RSet, places: &[Place]) -> Result<List<Text>, AllocError>
    ensures { IfOk result (λ names. names ≡ names_for (map (λ p. p.rank) places.now) (names_of set.now.hosts)) }
{
    let names = names_of(alloc, set.hosts.items())?;
    if names.is_empty() {
        return plain_names(alloc, places);
    }
    Ok(names)
}

/// The node of a place, with this name.
fn node_at(
    alloc: Global,
    rows: &[RRow],
    properties: &[Property],
    place: Place,
    name: &Text,
) -> Result<RNode, AllocError>
    requires { place.row < length rows.now }
    ensures { IfOk result (λ node. node ≡ node_at rows.now properties.now place name.now) }
{
    let row = &rows[place.row];
    Ok(RNode {
        rank: place.rank,
        name: name.copy(alloc)?,
        cores: ids_of(alloc, row.cores.items())?,
        gpus: ids_of(alloc, row.gpus.items())?,
        properties: names_at(alloc, properties, place.rank)?,
    })
}

/// The nodes of places, with these names in turn.
fn nodes_at(
    alloc: Global,
    rows: &[RRow],
    properties: &[Property],
    places: &[Place],
    names: &[Text],
) -> Result<List<RNode>, AllocError>
    requires rows { AllByRecursion (λ p. p.row < length rows.now) places.now }
    requires names { length names.now ≡ length places.now }
    ensures { IfOk result (λ nodes. nodes ≡ nodes_at rows.now properties.now places.now names.now) }
{
    let mut nodes = Vec::with_capacity(alloc, places.len())?;
    'places: for at in 0..places.len() {
        let node = node_at(alloc, rows, properties, places[at], &names[at])?;
        nodes.push(node)?;
    }
    Ok(List::of_vec(nodes))
}

/// The nodes of a set: one for each rank, in rising order of rank. The hosts are those of the ranks in that order.
pub(crate) fn nodes_of(
    alloc: Global,
    set: &RSet,
    properties: &[Property],
) -> Result<List<RNode>, AllocError>
    requires apart { IsRepeatedRank (ranges_in set.now.rows) None }
    requires hosts { HasHosts set.now }
    requires size { HasSize set.now }
    requires rows { HasFairRows set.now.rows }
    ensures nodes { IfOk result (λ nodes. AreNodesOf set.now properties.now nodes) }
    ensures fair { IfOk result (λ nodes. AreFairNodes nodes) }
{
    let places = places_of(alloc, set.rows.items())?;
    let names = names_for(alloc, set, places.as_slice())?;
    nodes_at(
        alloc,
        set.rows.items(),
        properties,
        places.as_slice(),
        names.items(),
    )
}
