//! A graph with filter rules.
ghost use Rattle.std.specs.Prelude.{◌≡◌, ◌↔◌, IsTrue, IfOk, slice_get, unwrap_or, false};
ghost use Rattle.std.specs.Arc.{arc_value};
ghost use Rattle.resource_graph.specs.NamedGraph.{IsWhole};
ghost use Rattle.book_state.specs.Filtered.{IsKeptRow, AreKeptRows};
ghost use Rattle.book_state.specs.Books.{IsPairKept};

use flux_defs::List;
use prune_filters::Rules;
use resource_graph::Graph;
use std::alloc::{AllocError, Global};
use std::marker::Model;
use std::sync::Arc;

/// A graph with filter rules. Which totals the rules keep is worked out once, for each pair of types of the graph.
/// Contracts see the graph and the rules.
#[derive(Drop)]
pub struct FilteredGraph {
    graph: Arc<Graph, Global>,
    rules: Rules,
    rows: List<List<bool>>,
}

impl Model for FilteredGraph {
    ghost use Rattle.std.specs.Arc.{arc_value};
    ghost use Rattle.book_state.specs.Filtered.{Filtered, AreKeptRows};

    ghost Value = { Filtered };

    ghost view = { λ it. record { graph = arc_value it.graph; rules = it.rules } };

    ghost invariant = { λ it. AreKeptRows (arc_value it.graph).resources.kinds it.rules it.rows };
}

impl FilteredGraph {
    /// The graph with these rules.
    pub(crate) fn of(
        alloc: Global,
        graph: Arc<Graph, Global>,
        rules: Rules,
    ) -> Result<FilteredGraph, AllocError>
        ensures graph { IfOk result (λ filtered. filtered.graph ≡ arc_value graph) }
        ensures rules { IfOk result (λ filtered. filtered.rules ≡ rules) }
    {
        let rows = kept_rows(alloc, &graph, &rules)?;
        Ok(FilteredGraph { graph, rules, rows })
    }

    /// The graph.
    pub(crate) fn graph(&self) -> &Graph
        ensures value { result.now ≡ self.now.graph }
        ensures valid { IsWhole result.now }
    {
        self.graph.is_valid();
        &self.graph
    }

    /// The filter rules.
    pub(crate) fn rules(&self) -> &Rules
        ensures { result.now ≡ self.now.rules }
    {
        &self.rules
    }

    /// Whether the rules keep totals of the lower type at vertices of the upper one.
    pub(crate) fn keeps(&self, upper: u32, lower: u32) -> bool
        ensures { IsTrue result ↔ IsPairKept self.now.graph self.now.rules upper lower }
    {
        match self.rows.get(upper as usize) {
            None => false,
            Some(row) => told_in(row, lower),
        }
    }
}

/// What a row tells of a type.
fn told_in(row: &List<bool>, kind: u32) -> bool
    ensures { result ≡ unwrap_or (slice_get row.now kind) false }
{
    row.get(kind as usize).copied().unwrap_or(false)
}

/// By the lower type, whether the rules keep totals of it at vertices of the type of this name.
fn kept_row(
    alloc: Global,
    graph: &Graph,
    rules: &Rules,
    high: &[u8],
) -> Result<List<bool>, AllocError>
    ensures { IfOk result (IsKeptRow graph.now.resources.kinds rules.now high.now) }
{
    graph.is_valid();
    let mut row = Vec::new(alloc);
    let mut kind = 0;
    while let Some(low) = graph.kind_name(kind) {
        row.push(rules.keeps(high, low.bytes()))?;
        kind += 1;
    }
    Ok(List::of_vec(row))
}

/// By the upper type, the row of its name.
fn kept_rows(alloc: Global, graph: &Graph, rules: &Rules) -> Result<List<List<bool>>, AllocError>
    ensures { IfOk result (AreKeptRows graph.now.resources.kinds rules.now) }
{
    graph.is_valid();
    let mut rows = Vec::new(alloc);
    let mut kind = 0;
    while let Some(high) = graph.kind_name(kind) {
        let row = kept_row(alloc, graph, rules, high.bytes())?;
        match rows.push(row) {
            Ok(()) => (),
            Err(_) => return Err(AllocError),
        }
        kind += 1;
    }
    Ok(List::of_vec(rows))
}
