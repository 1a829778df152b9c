//! The first entry from a place on that did something.
ghost use Rattle.std.specs.Prelude.{◌≡◌, ◌+◌, ◌≤◌, length, MatchOption};
ghost use Rattle.flux_defs.specs.Histories.{state_at};
ghost use Rattle.flux_defs.specs.Overtaken.{Frees, Blocks, IsFirstFrom, NoneFrom};
ghost use Rattle.overtaken_check.specs.Scans.{DelaysPast};
ghost use Rattle.overtaken_check.specs.Costs.{scan_most};
ghost use Rattle.resource_graph.specs.NamedGraph.{vertices_of};

use crate::entries::{blocks_at, frees_at, moment_past};
use flux_defs::{Claim, Entry, Steps, Window};
use resource_graph::Graph;
use snapshot_store::Pages;
use std::sync::ledger::Ledger;

/// The first accepted cancel from the place on.
pub(crate) fn first_cancel<L: Ledger>(
    journal: &Pages<Entry>,
    place: u64,
    steps: &mut Steps<L>,
) -> Option<u64>
    ensures answer { MatchOption result (NoneFrom (Frees journal.now) place) (IsFirstFrom (Frees journal.now) place) }
    ensures work { steps.new ≤ steps.old + scan_most journal.now place }
{
    for at in place..journal.len() {
        if frees_at(journal, at, steps) {
            return Some(at);
        }
    }
    None
}

/// The first entry from the place on that moved time on to a moment that comes too late; `moment` is the one at the
/// place.
pub(crate) fn first_delay<L: Ledger>(
    journal: &Pages<Entry>,
    place: u64,
    moment: u64,
    last: Option<u64>,
    steps: &mut Steps<L>,
) -> Option<u64>
    requires { moment ≡ (state_at journal.now place).moment }
    ensures answer { MatchOption result (NoneFrom (DelaysPast last journal.now) place)
        (IsFirstFrom (DelaysPast last journal.now) place) }
    ensures work { steps.new ≤ steps.old + scan_most journal.now place }
{
    let mut present = moment;
    for at in place..journal.len() {
        match moment_past(journal, at, present, last, steps) {
            None => return Some(at),
            Some(next) => present = next,
        }
    }
    None
}

/// The first entry from the place on that accepted a job in the way of the claim.
pub(crate) fn first_block<L: Ledger>(
    graph: &Graph,
    window: Window,
    claim: Claim,
    journal: &Pages<Entry>,
    place: u64,
    steps: &mut Steps<L>,
) -> Option<u64>
    ensures answer { MatchOption result (NoneFrom (Blocks (vertices_of graph.now) window claim journal.now) place)
        (IsFirstFrom (Blocks (vertices_of graph.now) window claim journal.now) place) }
    ensures work { steps.new ≤ steps.old + scan_most journal.now place }
{
    for at in place..journal.len() {
        if blocks_at(graph, window, claim, journal, at, steps) {
            return Some(at);
        }
    }
    None
}
