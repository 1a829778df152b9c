//! What each need of an ask demands, worked out once.
ghost use Rattle.std.specs.Prelude.{◌≡◌, List, ◌++◌, length, IfOk, OnOk};
ghost use Rattle.std.specs.List.{AllZip};
ghost use Rattle.flux_defs.specs.declared.vertices.Vertex.{Vertex};
ghost use Rattle.prune_filters.specs.Demands.{capped};
ghost use Rattle.dfu_match.specs.Tables.{all_of, needs_all, IsWantedBy};
ghost use Rattle.dfu_match.specs.declared.wanting.Wanted.{Wanted};
ghost use Rattle.dfu_match.specs.Tables.{Grows};
ghost use Rattle.resource_graph.specs.NamedGraph.{vertices_of};

use crate::demanding::{Kinds, demands_of};
use flux_defs::{List, Need};
use prune_filters::Demand;
use std::alloc::{AllocError, Global};
use text_forms::push;

/// What one of a need demands, and how many needs it is with those within it.
#[derive(Drop)]
pub(crate) struct Wanted {
    pub(crate) demands: List<Demand>,
    pub(crate) within: usize,
}

/// How many needs it is with those within it, at most the greatest number.
#[cycle(totalling)]
fn count_of(need: &Need) -> usize
    ensures { result ≡ capped (length (all_of need.now)) }
{
    match need {
        Need::Vert { needs, .. } => 1_usize.saturating_add(count_all(needs)),
        Need::Pool { .. } => 1,
        Need::Spread { needs, .. } => 1_usize.saturating_add(count_all(needs)),
    }
}

/// The same of each need of a list.
#[cycle(totalling)]
fn count_all(needs: &List<Need>) -> usize
    ensures { result ≡ capped (length (needs_all needs.now)) }
{
    let mut total: usize = 0;
    for need in needs.items() {
        total = total.saturating_add(count_of(need));
    }
    total
}

/// What each need demands, first of a need and then of those within it.
pub(crate) fn table_of(
    alloc: Global,
    kinds: &Kinds,
    needs: &List<Need>,
) -> Result<List<Wanted>, AllocError>
    ensures { IfOk result (AllZip (IsWantedBy (vertices_of kinds.now.graph.now)) (needs_all needs.now)) }
{
    let mut table = Vec::new(alloc);
    list_all(alloc, kinds, needs, &mut table)?;
    Ok(List::of_vec(table))
}

/// Adds the entries of the needs, each before those within it.
#[cycle(listing)]
fn list_all(
    alloc: Global,
    kinds: &Kinds,
    needs: &List<Need>,
    table: &mut Vec<Wanted>,
) -> Result<(), AllocError>
    ensures { OnOk result (Grows (IsWantedBy (vertices_of kinds.now.graph.now)) (needs_all needs.now)
        table.old.items table.new.items) }
{
    for need in needs.items() {
        list_one(alloc, kinds, need, table)?;
    }
    Ok(())
}

/// Adds the entry of the need, and those of the needs within it.
#[cycle(listing)]
fn list_one(
    alloc: Global,
    kinds: &Kinds,
    need: &Need,
    table: &mut Vec<Wanted>,
) -> Result<(), AllocError>
    ensures { OnOk result (Grows (IsWantedBy (vertices_of kinds.now.graph.now)) (all_of need.now)
        table.old.items table.new.items) }
{
    let wanted = wanted_of(alloc, kinds, need)?;
    push(table, wanted)?;
    match need {
        Need::Vert { needs, .. } => {
            list_all(alloc, kinds, needs, table)?;
            Ok(())
        }
        Need::Pool { .. } => Ok(()),
        Need::Spread { needs, .. } => {
            list_all(alloc, kinds, needs, table)?;
            Ok(())
        }
    }
}

/// The entry of the need.
fn wanted_of(alloc: Global, kinds: &Kinds, need: &Need) -> Result<Wanted, AllocError>
    ensures { IfOk result (IsWantedBy (vertices_of kinds.now.graph.now) need.now) }
{
    Ok(Wanted {
        demands: demands_of(alloc, kinds, need)?,
        within: count_of(need),
    })
}
