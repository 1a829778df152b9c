//! From request vertices to needs.
ghost use Rattle.std.specs.Prelude.{◌≡◌, ◌<◌, ◌≤◌, ◌^◌, ◌*◌, ◌++◌, ◌∷◌, [], true, false, length, None, IfOk, IfErr};
ghost use Rattle.std.specs.Prelude.{IfSome, IfNone, IsOk, OnOk};
ghost use Rattle.flux_defs.specs.Needs.{scaled, scaled_need, AreValidNeeds};
ghost use Rattle.flux_defs.specs.declared.limits.TheConstants.{GREATEST_NUMBER};
ghost use Rattle.need_shape.specs.Requests.{AreRequests};
ghost use Rattle.need_shape.specs.Types.{types_at, types_for};
ghost use Rattle.need_shape.specs.declared.raw.RawNeed.{out-RawNeed};
ghost use Rattle.need_shape.specs.Shapes.{outside, in_type, needs_of, needs_in, slot_needs_in, type_need_in};
ghost use Rattle.need_shape.specs.Faults.{IsFirstFault, fault_of, members_fault_in, list_fault, pairs_fault};
ghost use Rattle.need_shape.specs.Faults.{slot_fault_in, type_fault_in, pool_fault, is_some_list, is_past, fault_where};

use crate::pairs::pairs_fault;
use crate::raw::{RawNeed, ShapeFault};
use crate::types::{add_types, graph_types, is_inner, is_slot, names_upper, number_of};
use flux_defs::{GREATEST_NUMBER, List, Need};
use resource_graph::Graph;
use std::alloc::Global;
use text_forms::push;
use text_table::TextTable;

/// Where a request vertex stands: in a slot or not, and in a request for nodes, or for what nodes contain, or not.
#[derive(Clone, Copy, Debug)]
pub struct Within {
    pub slot: bool,
    pub node: bool,
}

/// The need, its count so many times, where that is not past the greatest count.
fn scaled_need(count: u64, need: Need) -> Option<Need>
    ensures some { IfSome result (λ scaled. (scaled ≡ scaled_need count need) × (is_past count (need ∷ []) ≡ false)) }
    ensures none { IfNone result (is_past count (need ∷ []) ≡ true) }
{
    match need {
        Need::Vert {
            kind,
            count: each,
            hold,
            needs,
        } => Some(Need::Vert {
            kind,
            count: product(count, each)?,
            hold,
            needs,
        }),
        Need::Pool { kind, quantity } => Some(Need::Pool {
            kind,
            quantity: product(count, quantity)?,
        }),
        Need::Spread { count: each, needs } => Some(Need::Spread {
            count: product(count, each)?,
            needs,
        }),
    }
}

/// The product, where it is not past the greatest count.
fn product(count: u64, amount: u64) -> Option<u64>
    ensures some { IfSome result (λ times. (times ≡ count * amount) × (count * amount ≤ GREATEST_NUMBER)) }
    ensures none { IfNone result (GREATEST_NUMBER < count * amount) }
{
    let times = count.checked_mul(amount)?;
    if times > GREATEST_NUMBER {
        return None;
    }
    Some(times)
}

/// Adds the needs, each its count so many times.
fn add_scaled(count: u64, needs: Vec<Need>, out: &mut Vec<Need>) -> Result<(), ShapeFault>
    ensures ok { OnOk result
        ((out.new.items ≡ out.old.items ++ scaled count needs.items) × (is_past count needs.items ≡ false)) }
    ensures told { IfErr result (IsFirstFault (fault_where (is_past count needs.items) ShapeFault.CountLimit)) }
{
    for need in needs {
        match scaled_need(count, need) {
            Some(times) => push(out, times)?,
            None => return Err(ShapeFault::CountLimit),
        }
    }
    Ok(())
}

/// Refuses needs with a fault in a pair of them.
fn check_pairs(
    alloc: Global,
    graph: &Graph,
    table: &TextTable,
    needs: &[Need],
) -> Result<(), ShapeFault>
    requires { length table.now < 2 ^ 32 }
    ensures ok { IsOk result → pairs_fault (types_at graph.now table.now) needs.now ≡ None }
    ensures told { IfErr result (IsFirstFault (pairs_fault (types_at graph.now table.now) needs.now)) }
{
    match pairs_fault(alloc, graph, table, needs)? {
        Some(fault) => Err(fault),
        None => Ok(()),
    }
}

/// Where what is asked for in a request for this type stands.
fn in_type(graph: &Graph, table: &TextTable, within: Within, kind: &[u8]) -> Within
    requires { length table.now < 2 ^ 32 }
    ensures { result ≡ in_type (types_at graph.now table.now) within kind.now }
{
    Within {
        slot: within.slot,
        node: is_inner(graph, table, kind) || within.node,
    }
}

/// The need that a request for a pool type of this number becomes.
fn shape_pool(alloc: Global, kind: u32, raw: &RawNeed) -> Result<Need, ShapeFault>
    ensures need { IfOk result (λ need. need ≡ Need.Pool kind (out-RawNeed raw.now).count) }
    ensures bare { IsOk result → (out-RawNeed raw.now).with ≡ [] }
    ensures fine { IsOk result → pool_fault
        (out-RawNeed raw.now).kind (out-RawNeed raw.now).exclusive (is_some_list (out-RawNeed raw.now).with) ≡ None }
    ensures told { IfErr result (IsFirstFault
        (pool_fault (out-RawNeed raw.now).kind (out-RawNeed raw.now).exclusive
        (is_some_list (out-RawNeed raw.now).with))) }
{
    if raw.exclusive.unwrap_or(false) {
        let kind = raw.kind.copy(alloc)?;
        return Err(ShapeFault::HeldPool { kind });
    }
    if !raw.with.is_empty() {
        let kind = raw.kind.copy(alloc)?;
        return Err(ShapeFault::PoolWith { kind });
    }
    Ok(Need::Pool {
        kind,
        quantity: raw.count,
    })
}

/// Adds the needs that the members of a list become.
#[cycle(shaping)]
fn add_members(
    alloc: Global,
    graph: &Graph,
    table: &TextTable,
    within: Within,
    request: &List<RawNeed>,
    out: &mut Vec<Need>,
) -> Result<(), ShapeFault>
    requires { length table.now < 2 ^ 32 }
    ensures ok { OnOk result
        ((out.new.items ≡ out.old.items ++ needs_in (types_at graph.now table.now) within request.now)
        × (members_fault_in (types_at graph.now table.now) within request.now ≡ None)) }
    ensures told { IfErr result (IsFirstFault (members_fault_in (types_at graph.now table.now) within request.now)) }
{
    for raw in request.items() {
        add_member(alloc, graph, table, within, raw, out)?;
    }
    Ok(())
}

/// The needs that a list becomes.
#[cycle(shaping)]
fn shape_list(
    alloc: Global,
    graph: &Graph,
    table: &TextTable,
    within: Within,
    request: &List<RawNeed>,
) -> Result<List<Need>, ShapeFault>
    requires { length table.now < 2 ^ 32 }
    ensures needs { IfOk result (λ needs. needs ≡ needs_in (types_at graph.now table.now) within request.now) }
    ensures fine { IsOk result → list_fault (types_at graph.now table.now) within request.now ≡ None }
    ensures told { IfErr result (IsFirstFault (list_fault (types_at graph.now table.now) within request.now)) }
{
    let mut needs = Vec::new(alloc);
    add_members(alloc, graph, table, within, request, &mut needs)?;
    check_pairs(alloc, graph, table, needs.as_slice())?;
    Ok(List::of_vec(needs))
}

/// Adds the needs that a request vertex becomes.
#[cycle(shaping)]
fn add_member(
    alloc: Global,
    graph: &Graph,
    table: &TextTable,
    within: Within,
    raw: &RawNeed,
    out: &mut Vec<Need>,
) -> Result<(), ShapeFault>
    requires { length table.now < 2 ^ 32 }
    ensures ok { OnOk result ((out.new.items ≡ out.old.items ++ needs_of (types_at graph.now table.now) within raw.now)
        × (fault_of (types_at graph.now table.now) within raw.now ≡ None)) }
    ensures told { IfErr result (IsFirstFault (fault_of (types_at graph.now table.now) within raw.now)) }
{
    if is_slot(raw.kind.bytes()) {
        return add_slot(alloc, graph, table, within, raw.count, &raw.with, out);
    }
    match shape_type(alloc, graph, table, within, raw) {
        Ok(need) => Ok(push(out, need)?),
        Err(fault) => Err(fault),
    }
}

/// Adds the needs that a slot becomes: copies that each lie whole in one node, or its needs, multiplied out.
#[cycle(shaping)]
fn add_slot(
    alloc: Global,
    graph: &Graph,
    table: &TextTable,
    within: Within,
    count: u64,
    with: &List<RawNeed>,
    out: &mut Vec<Need>,
) -> Result<(), ShapeFault>
    requires { length table.now < 2 ^ 32 }
    ensures ok { OnOk result
        ((out.new.items ≡ out.old.items ++ slot_needs_in (types_at graph.now table.now) within count with.now)
        × (slot_fault_in (types_at graph.now table.now) within count with.now ≡ None)) }
    ensures told { IfErr result (IsFirstFault (slot_fault_in (types_at graph.now table.now) within count with.now)) }
{
    let inside = Within {
        slot: true,
        node: within.node,
    };
    if within.node || names_upper(graph, table, with) {
        let mut needs = Vec::new(alloc);
        add_members(alloc, graph, table, inside, with, &mut needs)?;
        return add_scaled(count, needs, out);
    }
    let needs = shape_list(alloc, graph, table, inside, with)?;
    push(out, Need::Spread { count, needs })?;
    Ok(())
}

/// The need that a request for a type becomes.
#[cycle(shaping)]
fn shape_type(
    alloc: Global,
    graph: &Graph,
    table: &TextTable,
    within: Within,
    raw: &RawNeed,
) -> Result<Need, ShapeFault>
    requires { length table.now < 2 ^ 32 }
    ensures need { IfOk result (λ need. need ≡ type_need_in (types_at graph.now table.now) within raw.now) }
    ensures fine { IsOk result → type_fault_in (types_at graph.now table.now) within raw.now ≡ None }
    ensures told { IfErr result (IsFirstFault (type_fault_in (types_at graph.now table.now) within raw.now)) }
{
    let kind = number_of(table, raw.kind.bytes());
    if graph.is_pool(kind) {
        return shape_pool(alloc, kind, raw);
    }
    let inside = in_type(graph, table, within, raw.kind.bytes());
    match shape_list(alloc, graph, table, inside, &raw.with) {
        Ok(needs) => Ok(Need::Vert {
            kind,
            count: raw.count,
            hold: raw.exclusive.unwrap_or(within.slot),
            needs,
        }),
        Err(fault) => Err(fault),
    }
}

/// The needs that a jobspec's request vertices become over a graph, or the first fault of them, in the order in which
/// faults are told: member by member, each before its list, and after the members the pairs of siblings.
pub fn shape(
    alloc: Global,
    graph: &Graph,
    request: &List<RawNeed>,
) -> Result<List<Need>, ShapeFault>
    requires { AreRequests false request.now }
    ensures needs { IfOk result
        (λ needs. needs ≡ needs_in (types_for graph.now.resources request.now) outside request.now) }
    ensures fine { IsOk result → list_fault (types_for graph.now.resources request.now) outside request.now ≡ None }
    ensures told { IfErr result (IsFirstFault
        (list_fault (types_for graph.now.resources request.now) outside request.now)) }
    ensures valid { IfOk result (AreValidNeeds graph.now.resources.vertices) }
{
    graph.is_valid();
    let mut table = graph_types(alloc, graph)?;
    add_types(alloc, &mut table, request)?;
    if table.len() > u32::MAX as usize {
        return Err(ShapeFault::Memory);
    }
    let within = Within {
        slot: false,
        node: false,
    };
    shape_list(alloc, graph, &table, within, request)
}
