//! The types of a graph and of a request: their numbers, and which contain which.
ghost use Rattle.std.specs.Prelude.{◌≡◌, ◌<◌, ◌^◌, length, bytes_eq, codes, IfOk, OnOk};
ghost use Rattle.std.specs.List.{list_any};
ghost use Rattle.text_table.specs.Tables.{index_of, with_texts};
ghost use Rattle.need_shape.specs.Requests.{is_slot, types_of, types_in};
ghost use Rattle.need_shape.specs.Types.{types_at, is_inner, is_upper};

use crate::raw::RawNeed;
use flux_defs::List;
use resource_graph::Graph;
use std::alloc::{AllocError, Global};
use text_table::TextTable;

/// As many types as most graphs and requests have: a table of so many takes no memory twice.
const FEW: usize = 8;

/// Whether a request vertex whose type is called so is a slot.
pub(crate) fn is_slot(kind: &[u8]) -> bool
    ensures { result ≡ is_slot kind.now }
{
    kind == b"slot".as_slice()
}

/// A table of the graph's types.
pub(crate) fn graph_types(alloc: Global, graph: &Graph) -> Result<TextTable, AllocError>
    ensures { IfOk result (λ table. table ≡ graph.now.resources.kinds) }
{
    graph.is_valid();
    let mut table = TextTable::with_capacity(alloc, FEW)?;
    let mut kind = 0;
    while let Some(name) = graph.kind_name(kind) {
        table.add(alloc, name.bytes())?;
        kind += 1;
    }
    Ok(table)
}

/// Adds the types that the request vertices name.
#[cycle(naming)]
pub(crate) fn add_types(
    alloc: Global,
    table: &mut TextTable,
    request: &List<RawNeed>,
) -> Result<(), AllocError>
    ensures { OnOk result (table.new ≡ with_texts table.old (types_in request.now)) }
{
    for raw in request.items() {
        add_types_of(alloc, table, raw)?;
    }
    Ok(())
}

#[cycle(naming)]
fn add_types_of(alloc: Global, table: &mut TextTable, raw: &RawNeed) -> Result<(), AllocError>
    ensures { OnOk result (table.new ≡ with_texts table.old (types_of raw.now)) }
{
    if is_slot(raw.kind.bytes()) {
        return add_types(alloc, table, &raw.with);
    }
    table.add(alloc, raw.kind.bytes())?;
    add_types(alloc, table, &raw.with)
}

/// The number of the type that is called so.
pub(crate) fn number_of(table: &TextTable, kind: &[u8]) -> u32
    requires { length table.now < 2 ^ 32 }
    ensures { result ≡ index_of table.now kind.now }
{
    table.index_of(kind) as u32
}

/// Whether the type is that of nodes, or nodes contain it.
pub(crate) fn is_inner(graph: &Graph, table: &TextTable, kind: &[u8]) -> bool
    requires { length table.now < 2 ^ 32 }
    ensures { result ≡ is_inner (types_at graph.now table.now) kind.now }
{
    kind == b"node".as_slice() || graph.nests(number_of(table, b"node"), number_of(table, kind))
}

/// Whether the type is that of nodes, or contains nodes.
fn is_upper(graph: &Graph, table: &TextTable, kind: &[u8]) -> bool
    requires { length table.now < 2 ^ 32 }
    ensures { result ≡ is_upper (types_at graph.now table.now) kind.now }
{
    kind == b"node".as_slice() || graph.nests(number_of(table, kind), number_of(table, b"node"))
}

/// Whether the request vertices name the type of nodes or one that contains nodes, at any depth.
#[cycle(uppers)]
pub(crate) fn names_upper(graph: &Graph, table: &TextTable, request: &List<RawNeed>) -> bool
    requires { length table.now < 2 ^ 32 }
    ensures { result ≡ list_any (is_upper (types_at graph.now table.now)) (types_in request.now) }
{
    for raw in request.items() {
        if names_upper_type(graph, table, raw) {
            return true;
        }
    }
    false
}

#[cycle(uppers)]
fn names_upper_type(graph: &Graph, table: &TextTable, raw: &RawNeed) -> bool
    requires { length table.now < 2 ^ 32 }
    ensures { result ≡ list_any (is_upper (types_at graph.now table.now)) (types_of raw.now) }
{
    if is_slot(raw.kind.bytes()) {
        return names_upper(graph, table, &raw.with);
    }
    is_upper(graph, table, raw.kind.bytes()) || names_upper(graph, table, &raw.with)
}
