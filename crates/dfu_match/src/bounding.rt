//! How many copies of a spread a vertex serves at most over later windows too, by the totals that are kept there.
ghost use Rattle.std.specs.Prelude.{◌+◌, ◌*◌, ◌<◌, ◌≤◌, length};
ghost use Rattle.flux_defs.specs.Needs.{IsValidNeed};
ghost use Rattle.dfu_match.specs.Tables.{all_of, needs_all, StandsAt};
ghost use Rattle.dfu_match.specs.Reaches.{AreMostServed, FallsWithin};
ghost use Rattle.resource_graph.specs.NamedGraph.{vertices_of};

use crate::demanding::{Kinds, demand_of};
use crate::search::Search;
use flux_defs::{FreeView, List, Need, Steps};
use prune_filters::Demand;
use std::sync::ledger::Ledger;

/// So many copies of a spread are what the total of a kind seems to leave room for.
#[derive(Clone, Copy)]
struct Room {
    kind: u32,
    copies: u64,
}

/// How many copies of a spread the vertex serves at most, over each window that reaches over what is left of this one
/// from `until` on, which falls to a moment that tells so: by the total that leaves room for the fewest. None where no
/// total tells it.
pub(crate) fn most_copies<F: FreeView, L: Ledger>(
    s: &Search<F>,
    need: &Need,
    index: usize,
    vertex: u32,
    until: &mut u64,
    steps: &mut Steps<L>,
) -> Option<u64>
    requires stands { StandsAt (needs_all s.now.needs.now) s.now.wanted.now index need.now }
    requires vertex { vertex < length (vertices_of s.now.graph.now) }
    requires valid { IsValidNeed (vertices_of s.now.graph.now) need.now }
    ensures most { AreMostServed (vertices_of s.now.graph.now) (F.stands_for s.now.view.now) s.now.barred.now
        s.now.window until.new need.now vertex result }
    ensures falls { FallsWithin s.now.window until.old until.new }
    ensures work { steps.new ≤ steps.old + (length (all_of need.now) + 1) * F.cost s.now.view.now }
{
    s.graph.is_valid();
    let Some(wanted) = s.wanted.get(index) else {
        return None;
    };
    let nodes = s.graph.kind_of(b"node");
    let kinds = Kinds {
        graph: s.graph,
        nodes,
    };
    let Some(room) = least_room(s, &kinds, need, &wanted.demands, vertex, steps) else {
        return None;
    };
    let more = demand_of(&kinds, room.kind, room.copies.saturating_add(1), need);
    match s.view.total_until(vertex, room.kind, more, s.window, steps) {
        None => None,
        Some(moment) => {
            *until = moment.min(*until);
            Some(room.copies)
        }
    }
}

/// The kind whose total at the vertex seems to leave room for the fewest copies: a guess, which promises nothing.
fn least_room<F: FreeView, L: Ledger>(
    s: &Search<F>,
    kinds: &Kinds,
    need: &Need,
    demands: &List<Demand>,
    vertex: u32,
    steps: &mut Steps<L>,
) -> Option<Room>
    requires vertex { vertex < length (vertices_of s.now.graph.now) }
    requires few { length demands.now ≤ length (all_of need.now) }
    ensures work { steps.new ≤ steps.old + length (all_of need.now) * F.cost s.now.view.now }
{
    let mut least: Option<Room> = None;
    for demand in demands.items() {
        let each = demand_of(kinds, demand.kind, 2, need).saturating_sub(demand.amount);
        least = fewer(least, room_for(s, *demand, each, vertex, steps));
    }
    least
}

/// How many copies that take so much each of the demand's kind its total at the vertex leaves room for, where it is
/// kept and they take some.
fn room_for<F: FreeView, L: Ledger>(
    s: &Search<F>,
    demand: Demand,
    each: u64,
    vertex: u32,
    steps: &mut Steps<L>,
) -> Option<Room>
    requires vertex { vertex < length (vertices_of s.now.graph.now) }
    ensures work { steps.new ≤ steps.old + F.cost s.now.view.now }
{
    if each == 0 {
        return None;
    }
    let total = s.view.total_over(vertex, demand.kind, s.window, steps)?;
    Some(Room {
        kind: demand.kind,
        copies: total / each,
    })
}

/// The one with fewer copies.
fn fewer(one: Option<Room>, other: Option<Room>) -> Option<Room> {
    match (one, other) {
        (None, other) => other,
        (one, None) => one,
        (Some(one), Some(other)) => {
            if other.copies < one.copies {
                Some(other)
            } else {
                Some(one)
            }
        }
    }
}
