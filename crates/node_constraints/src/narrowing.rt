//! The nodes for which a constraint is true, found for all nodes at once: one walk over the constraint narrows a list
//! of nodes key by key, and finds the faults on its way. A fault is told from the inside on, so that no path is made
//! where nothing is wrong. Where some or none of a list's constraints has to be true, a copy of the nodes that are
//! still in question is narrowed, and what is left of it is taken away.
ghost use Rattle.std.specs.Prelude.{◌≡◌, ◌++◌, ◌||◌, ◌==◌, ℕ, List, Option, Some, false, not, IfOk, IsOk, OnOk};
ghost use Rattle.std.specs.List.{list_any};
ghost use Rattle.std.specs.Option.{option_map_or};
ghost use Rattle.json_whole.specs.Values.{view, items_view};
ghost use Rattle.json_fields.specs.Paths.{index};
ghost use Rattle.idset_text.specs.Hostlists.{names_of};
ghost use Rattle.idset_text.specs.Idsets.{ids_of};
ghost use Rattle.node_constraints.specs.Truth.{facts_of, is_among, has_property, is_listed, is_ranked, each_text};
ghost use Rattle.node_constraints.specs.Truth.{some_text, is_empty, is_true, key_is_true, list_is_true, each_true};
ghost use Rattle.node_constraints.specs.Truth.{some_true, key_of};
ghost use Rattle.node_constraints.specs.Faults.{is_text, is_hostlist, is_idset, unless, fault_at, key_fault};
ghost use Rattle.node_constraints.specs.Faults.{list_fault, items_fault, list_path};
ghost use Rattle.node_constraints.specs.Narrowing.{where_true, Means, Finds};

use crate::faults::ConstraintFault;
use crate::keys::{Key, key_of};
use crate::listed::Listed;
use crate::nodes::{properties_of, take_away};
use crate::ranks::Ranks;
use crate::texts::{are_texts, has_properties, read_hostlists, read_idsets};
use flux_defs::Text;
use json::Value;
use json_fields::{index_path, joined_path};
use json_whole::{as_array, as_object, in_order};
use resource_graph::Graph;
use std::alloc::{AllocError, Global};

/// A fault that stands in the constraint itself, told from there on.
fn fault_here(alloc: Global) -> ConstraintFault
    ensures { (path : List ℕ) → Means path (Some path) result }
{
    ConstraintFault::Form {
        path: Text::empty(alloc),
    }
}

/// A fault that was told from an inner place on, told from the one before this front of its path.
pub(crate) fn behind(alloc: Global, front: &[u8], fault: ConstraintFault) -> ConstraintFault
    ensures { (path : List ℕ) (meant : Option (List ℕ)) → Means (path ++ front.now) meant fault →
        Means path meant result }
{
    let ConstraintFault::Form { path: rest } = fault else {
        return ConstraintFault::Memory;
    };
    match joined_path(alloc, front, rest.bytes()) {
        Ok(path) => ConstraintFault::Form { path },
        Err(_) => ConstraintFault::Memory,
    }
}

/// A fault of the member with this index, told from the list on.
fn in_member(alloc: Global, at: u64, fault: ConstraintFault) -> ConstraintFault
    ensures { (list : List ℕ) (meant : Option (List ℕ)) → Means (list ++ index at) meant fault →
        Means list meant result }
{
    match index_path(alloc, at) {
        Ok(front) => behind(alloc, front.bytes(), fault),
        Err(_) => ConstraintFault::Memory,
    }
}

/// What was found in the list at a key, told from the constraint on.
fn in_list(
    alloc: Global,
    key: &str,
    narrowed: Result<(), ConstraintFault>,
) -> Result<(), ConstraintFault>
    ensures ok { IsOk result → IsOk narrowed }
    ensures found { (path : List ℕ) (meant : Option (List ℕ)) → Finds (list_path path key.now) narrowed meant →
        Finds path result meant }
{
    match narrowed {
        Ok(()) => Ok(()),
        Err(fault) => match joined_path(alloc, b".", key.as_bytes()) {
            Ok(front) => Err(behind(alloc, front.bytes(), fault)),
            Err(_) => Err(ConstraintFault::Memory),
        },
    }
}

/// A copy of the nodes.
fn copy_of(alloc: Global, nodes: &Vec<u32>) -> Result<Vec<u32>, AllocError>
    ensures { IfOk result (λ copy. copy.items ≡ nodes.now.items) }
{
    Vec::from_slice(alloc, nodes.as_slice())
}

/// Whether the texts at `properties` are true for a node.
fn has_them(graph: &Graph, node: u32, values: &[Value]) -> bool
    ensures { result ≡ each_text (has_property (facts_of graph.now node).properties) (items_view values.now) }
{
    has_properties(properties_of(graph, node), values)
}

/// Leaves the nodes for which the texts at `properties` are true.
fn narrow_by_properties(
    alloc: Global,
    graph: &Graph,
    values: &[Value],
    nodes: &mut Vec<u32>,
) -> Result<(), ConstraintFault>
    ensures kept { OnOk result (nodes.new.items
        ≡ where_true graph.now (λ n. each_text (has_property n.properties) (items_view values.now)) nodes.old.items) }
    ensures found { (path : List ℕ) → Finds path result (unless path (each_text is_text (items_view values.now))) }
{
    if !are_texts(values) {
        return Err(fault_here(alloc));
    }
    nodes.retain(|node| has_them(graph, *node, values));
    Ok(())
}

/// Whether the name of a node is one of the hosts of some list.
fn is_among_hosts(graph: &Graph, node: u32, listed: &Listed) -> bool
    ensures { result ≡ list_any (λ hosts. is_among (names_of hosts) (facts_of graph.now node).name) listed.now.lists }
{
    listed.has(graph.name_at(node))
}

/// Leaves the nodes for which the texts at `hostlist` are true.
fn narrow_by_hosts(
    alloc: Global,
    graph: &Graph,
    values: &[Value],
    nodes: &mut Vec<u32>,
) -> Result<(), ConstraintFault>
    ensures kept { OnOk result (nodes.new.items
        ≡ where_true graph.now (λ n. some_text (is_listed n.name) (items_view values.now)) nodes.old.items) }
    ensures found { (path : List ℕ) → Finds path result (unless path (each_text is_hostlist (items_view values.now))) }
{
    let Some(lists) = read_hostlists(alloc, values)? else {
        return Err(fault_here(alloc));
    };
    let listed = Listed::of(alloc, lists)?;
    nodes.retain(|node| is_among_hosts(graph, *node, &listed));
    Ok(())
}

/// Whether the rank of a node is one of the ids of some set.
fn is_among_ids(graph: &Graph, node: u32, ranks: &Ranks) -> bool
    ensures { result ≡ option_map_or (λ r. list_any (λ ranges. list_any (λ id. id == r) (ids_of ranges)) ranks.now.sets)
        (facts_of graph.now node).rank false }
{
    ranks.has(graph.rank_at(node))
}

/// Leaves the nodes for which the texts at `ranks` are true.
fn narrow_by_ranks(
    alloc: Global,
    graph: &Graph,
    values: &[Value],
    nodes: &mut Vec<u32>,
) -> Result<(), ConstraintFault>
    ensures kept { OnOk result (nodes.new.items
        ≡ where_true graph.now (λ n. some_text (is_ranked n.rank) (items_view values.now)) nodes.old.items) }
    ensures found { (path : List ℕ) → Finds path result (unless path (each_text is_idset (items_view values.now))) }
{
    let Some(sets) = read_idsets(alloc, values)? else {
        return Err(fault_here(alloc));
    };
    let ranks = Ranks::of(alloc, sets)?;
    nodes.retain(|node| is_among_ids(graph, *node, &ranks));
    Ok(())
}

/// Leaves the nodes for which each constraint of a list is true.
#[cycle(narrowing)]
fn narrow_by_each(
    alloc: Global,
    graph: &Graph,
    values: &[Value],
    nodes: &mut Vec<u32>,
) -> Result<(), ConstraintFault>
    ensures kept { OnOk result
        (nodes.new.items ≡ where_true graph.now (λ n. each_true n (items_view values.now)) nodes.old.items) }
    ensures found { (list : List ℕ) → Finds list result (items_fault list 0 (items_view values.now)) }
{
    'values: for (at, value) in values.iter().enumerate() {
        match narrow(alloc, graph, value, nodes) {
            Ok(()) => {}
            Err(fault) => return Err(in_member(alloc, at as u64, fault)),
        }
    }
    Ok(())
}

/// Leaves the nodes for which no constraint of a list is true.
#[cycle(narrowing)]
fn narrow_by_none(
    alloc: Global,
    graph: &Graph,
    values: &[Value],
    nodes: &mut Vec<u32>,
) -> Result<(), ConstraintFault>
    ensures kept { OnOk result
        (nodes.new.items ≡ where_true graph.now (λ n. not (some_true n (items_view values.now))) nodes.old.items) }
    ensures found { (list : List ℕ) → Finds list result (items_fault list 0 (items_view values.now)) }
{
    'values: for (at, value) in values.iter().enumerate() {
        let mut some = copy_of(alloc, nodes)?;
        match narrow(alloc, graph, value, &mut some) {
            Ok(()) => take_away(alloc, nodes, some.as_slice())?,
            Err(fault) => return Err(in_member(alloc, at as u64, fault)),
        }
    }
    Ok(())
}

/// Leaves the nodes for which some constraint of a list is true, or all where there is none.
#[cycle(narrowing)]
fn narrow_by_some(
    alloc: Global,
    graph: &Graph,
    values: &[Value],
    nodes: &mut Vec<u32>,
) -> Result<(), ConstraintFault>
    ensures kept { OnOk result (nodes.new.items ≡ where_true graph.now
        (λ n. is_empty (items_view values.now) || some_true n (items_view values.now)) nodes.old.items) }
    ensures found { (list : List ℕ) → Finds list result (items_fault list 0 (items_view values.now)) }
{
    if values.is_empty() {
        return Ok(());
    }
    let mut others = copy_of(alloc, nodes)?;
    narrow_by_none(alloc, graph, values, &mut others)?;
    take_away(alloc, nodes, others.as_slice())?;
    Ok(())
}

/// Leaves the nodes for which some constraint of a list is false.
#[cycle(narrowing)]
fn narrow_by_not(
    alloc: Global,
    graph: &Graph,
    values: &[Value],
    nodes: &mut Vec<u32>,
) -> Result<(), ConstraintFault>
    ensures kept { OnOk result
        (nodes.new.items ≡ where_true graph.now (λ n. not (each_true n (items_view values.now))) nodes.old.items) }
    ensures found { (list : List ℕ) → Finds list result (items_fault list 0 (items_view values.now)) }
{
    let mut fitting = copy_of(alloc, nodes)?;
    narrow_by_each(alloc, graph, values, &mut fitting)?;
    take_away(alloc, nodes, fitting.as_slice())?;
    Ok(())
}

/// Leaves the nodes for which the list at a key of a constraint is true.
#[cycle(narrowing)]
fn narrow_by_list(
    alloc: Global,
    graph: &Graph,
    known: Key,
    key: &str,
    values: &[Value],
    nodes: &mut Vec<u32>,
) -> Result<(), ConstraintFault>
    ensures kept { OnOk result (nodes.new.items ≡ where_true graph.now (λ n. list_is_true n known (items_view
        values.now) (each_true n (items_view values.now)) (some_true n (items_view values.now))) nodes.old.items) }
    ensures found { (path : List ℕ) → Finds path result
        (list_fault path known (items_view values.now)
        (items_fault (list_path path key.now) 0 (items_view values.now))) }
{
    match known {
        Key::Properties => narrow_by_properties(alloc, graph, values, nodes),
        Key::Hostlist => narrow_by_hosts(alloc, graph, values, nodes),
        Key::Ranks => narrow_by_ranks(alloc, graph, values, nodes),
        Key::And => in_list(alloc, key, narrow_by_each(alloc, graph, values, nodes)),
        Key::Or => in_list(alloc, key, narrow_by_some(alloc, graph, values, nodes)),
        Key::Not => in_list(alloc, key, narrow_by_not(alloc, graph, values, nodes)),
    }
}

/// Leaves the nodes for which a key of a constraint is true.
#[cycle(narrowing)]
fn narrow_by_key(
    alloc: Global,
    graph: &Graph,
    key: &str,
    value: &Value,
    nodes: &mut Vec<u32>,
) -> Result<(), ConstraintFault>
    ensures kept { OnOk result (nodes.new.items
        ≡ where_true graph.now (λ n. key_is_true n (key_of key.now) (view value.now)) nodes.old.items) }
    ensures found { (path : List ℕ) → Finds path result (key_fault path key.now (key_of key.now) (view value.now)) }
{
    let Some(known) = key_of(key) else {
        return Err(fault_here(alloc));
    };
    let Some(values) = as_array(value) else {
        return Err(fault_here(alloc));
    };
    narrow_by_list(alloc, graph, known, key, values.as_slice(), nodes)
}

/// Leaves the nodes for which a constraint is true, or finds the fault in it.
#[cycle(narrowing)]
pub(crate) fn narrow(
    alloc: Global,
    graph: &Graph,
    constraint: &Value,
    nodes: &mut Vec<u32>,
) -> Result<(), ConstraintFault>
    ensures kept { OnOk result
        (nodes.new.items ≡ where_true graph.now (λ n. is_true n (view constraint.now)) nodes.old.items) }
    ensures found { (path : List ℕ) → Finds path result (fault_at path (view constraint.now)) }
{
    let Some(members) = as_object(constraint) else {
        return Err(fault_here(alloc));
    };
    let members = in_order(alloc, members)?;
    'members: for (key, value) in members.iter() {
        narrow_by_key(alloc, graph, key, value, nodes)?;
    }
    Ok(())
}
