//! Siblings: no two have one type, and none has a type that contains another's.
ghost use Rattle.std.specs.Prelude.{◌≡◌, ◌<◌, ◌^◌, length, None, Some, IfOk, IfErr, IfSome, IfNone, IsOk};
ghost use Rattle.need_shape.specs.Types.{types_at};
ghost use Rattle.need_shape.specs.Faults.{kind_in, name_in, pair_fault, row_fault, pairs_fault, IsFirstFault};

use crate::raw::ShapeFault;
use crate::types::number_of;
use flux_defs::{Need, Text};
use resource_graph::Graph;
use std::alloc::{AllocError, Global};
use text_table::TextTable;

/// The number of a need's type.
fn kind_in(graph: &Graph, table: &TextTable, need: &Need) -> u32
    requires { length table.now < 2 ^ 32 }
    ensures { result ≡ kind_in (types_at graph.now table.now) need.now }
{
    let _ = graph;
    match need.kind() {
        Some(kind) => kind,
        None => number_of(table, b"node"),
    }
}

/// What a need's type is called.
fn name_in(alloc: Global, graph: &Graph, table: &TextTable, need: &Need) -> Result<Text, AllocError>
    ensures { IfOk result (λ name. name ≡ name_in (types_at graph.now table.now) need.now) }
{
    let _ = graph;
    let Some(kind) = need.kind() else {
        return Text::of(alloc, b"node");
    };
    match table.text(kind as usize) {
        Some(name) => Text::of(alloc, name),
        None => Ok(Text::empty(alloc)),
    }
}

/// The fault of the upper sibling that contains the lower one.
fn nested(
    alloc: Global,
    graph: &Graph,
    table: &TextTable,
    upper: &Need,
    lower: &Need,
) -> Result<ShapeFault, AllocError>
    ensures { IfOk result (λ fault. fault ≡ ShapeFault.NestedSiblings
        (name_in (types_at graph.now table.now) upper.now) (name_in (types_at graph.now table.now) lower.now)) }
{
    Ok(ShapeFault::NestedSiblings {
        upper: name_in(alloc, graph, table, upper)?,
        lower: name_in(alloc, graph, table, lower)?,
    })
}

/// What is wrong with two siblings.
fn pair_fault(
    alloc: Global,
    graph: &Graph,
    table: &TextTable,
    first: &Need,
    second: &Need,
) -> Result<Option<ShapeFault>, AllocError>
    requires { length table.now < 2 ^ 32 }
    ensures { IfOk result (λ fault. fault ≡ pair_fault (types_at graph.now table.now) first.now second.now) }
{
    let one = kind_in(graph, table, first);
    let other = kind_in(graph, table, second);
    if one == other {
        let kind = name_in(alloc, graph, table, first)?;
        return Ok(Some(ShapeFault::SameSiblings { kind }));
    }
    if graph.nests(one, other) {
        return Ok(Some(nested(alloc, graph, table, first, second)?));
    }
    if graph.nests(other, one) {
        return Ok(Some(nested(alloc, graph, table, second, first)?));
    }
    Ok(None)
}

/// What is wrong with one sibling beside each of these.
fn row_fault(
    alloc: Global,
    graph: &Graph,
    table: &TextTable,
    first: &Need,
    others: &[Need],
) -> Result<Option<ShapeFault>, AllocError>
    requires { length table.now < 2 ^ 32 }
    ensures { IfOk result (λ fault. fault ≡ row_fault (types_at graph.now table.now) first.now others.now) }
{
    for second in others {
        let fault = pair_fault(alloc, graph, table, first, second)?;
        if fault.is_some() {
            return Ok(fault);
        }
    }
    Ok(None)
}

/// What is wrong with a list of siblings, pair by pair.
pub(crate) fn pairs_fault(
    alloc: Global,
    graph: &Graph,
    table: &TextTable,
    needs: &[Need],
) -> Result<Option<ShapeFault>, AllocError>
    requires { length table.now < 2 ^ 32 }
    ensures { IfOk result (λ fault. fault ≡ pairs_fault (types_at graph.now table.now) needs.now) }
{
    let mut rest = needs;
    while let Some((first, others)) = rest.split_first() {
        let fault = row_fault(alloc, graph, table, first, others)?;
        if fault.is_some() {
            return Ok(fault);
        }
        rest = others;
    }
    Ok(None)
}
