//! The search over starts.
ghost use Rattle.std.specs.Prelude.{◌≡◌, ℕ, ◌+◌, ◌<◌, ◌≤◌, List, IfOk, IfSome, MatchOption};
ghost use Rattle.flux_defs.specs.Needs.{IsProperAsk};
ghost use Rattle.flux_defs.specs.Asks.{window_of, IsLowestFirst, IsStart, IsEarliest};
ghost use Rattle.flux_defs.specs.Present.{InEach};
ghost use Rattle.dfu_match.specs.Matches.{IsKeptShort};
ghost use Rattle.earliest_search.specs.Tried.{TakesTries, IsNextTryOrNone};
ghost use Rattle.resource_graph.specs.NamedGraph.{vertices_of};

use crate::windows::{counts, window_at};
use dfu_match::{Known, Matched, Matcher};
use flux_defs::{Ask, Claim, List, Steps};
use prune_filters::TotalsView;
use resource_graph::Graph;
use std::alloc::{AllocError, Global};
use std::sync::ledger::Ledger;

/// A start, in seconds, and the claims there.
#[derive(Debug, Drop)]
pub struct Found {
    pub start: u64,
    pub claims: List<Claim>,
}

/// The next moment to try after one: where a total at the root was too small at a moment of its window, the next start
/// or end of a job after that one at which it isn't; where none fit until a moment, the next one after that. `None`
/// exactly where there is none.
fn next_try<F: TotalsView, L: Ledger>(
    view: &F,
    after: u64,
    matched: &Matched,
    steps: &mut Steps<L>,
) -> Option<u64>
    requires { IsKeptShort (F.keeps view.now) after matched.now }
    ensures later { IfSome result (λ t. after < t) }
    ensures next { InEach (F.stands_for view.now) (λ present. IsNextTryOrNone (F.graph view.now) present matched.now
        after result) }
    ensures work { steps.new ≤ steps.old + F.cost view.now }
{
    match matched {
        Matched::Short(shortage) => {
            let demand = shortage.demand;
            view.next_ample(shortage.moment, demand.kind, demand.amount, steps)
        }
        Matched::NoFit(until) => view.next_point(*until, steps),
        Matched::Fits(_) => view.next_point(after, steps),
    }
}

/// The least start from `now` on whose window counts and which some claims fit, with the lowest-first claims there;
/// `None` exactly where there is no such start before the horizon. All times are in seconds. The only error is want of
/// memory.
pub fn earliest<F: TotalsView, L: Ledger>(
    alloc: Global,
    graph: &Graph,
    view: &F,
    ask: &Ask,
    now: u64,
    horizon: u64,
    steps: &mut Steps<L>,
) -> Result<Option<Found>, AllocError>
    requires over { F.graph view.now ≡ vertices_of graph.now }
    requires proper { IsProperAsk (vertices_of graph.now) ask.now }
    ensures found { IfOk result (λ found. InEach (F.stands_for view.now) (λ present. MatchOption found
        ((t : ℕ) → now ≤ t → IsStart (vertices_of graph.now) present horizon ask.now t → ⊥)
        (λ f. IsEarliest (vertices_of graph.now) present horizon ask.now now f.start
        × IsLowestFirst (vertices_of graph.now) present ask.now (window_of horizon ask.now f.start) f.claims))) }
    ensures work { InEach (F.stands_for view.now)
        (λ present. TakesTries (vertices_of graph.now) present (F.keeps view.now) (F.cost view.now) horizon ask.now now
        horizon
        steps.old steps.new) }
    ensures soon { IfOk result (λ found. InEach (F.stands_for view.now)
        (λ present. IfSome found (λ f. TakesTries (vertices_of graph.now) present (F.keeps view.now) (F.cost view.now)
        horizon
        ask.now now f.start steps.old steps.new))) }
{
    graph.is_valid();
    let matcher = Matcher::of(alloc, graph, ask)?;
    let mut known = Known::nothing(alloc);
    let mut start = now;
    'starts: while counts(horizon, ask, start) {
        let window = window_at(horizon, ask, start);
        let matched = matcher.over(alloc, view, window, &mut known, steps)?;
        if let Matched::Fits(claims) = matched {
            return Ok(Some(Found { start, claims }));
        }
        match next_try(view, start, &matched, steps) {
            None => return Ok(None),
            Some(next) => start = next,
        }
    }
    Ok(None)
}
