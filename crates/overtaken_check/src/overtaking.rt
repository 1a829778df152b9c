//! Whether a candidate is overtaken, and by what.
ghost use Rattle.std.specs.Prelude.{◌≡◌, ℕ, ◌+◌, ◌*◌, ◌<◌, ◌≤◌, length, All, List, None, MatchOption};
ghost use Rattle.std.specs.List.{AllByRecursion};
ghost use Rattle.flux_defs.specs.Jobs.{vertex_of};
ghost use Rattle.flux_defs.specs.Closed.{no_bars};
ghost use Rattle.flux_defs.specs.Available.{IsAvailable};
ghost use Rattle.flux_defs.specs.Asks.{window_of};
ghost use Rattle.flux_defs.specs.Scheduler.{Setting, present_of};
ghost use Rattle.flux_defs.specs.Histories.{state_at};
ghost use Rattle.flux_defs.specs.Overtaken.{Frees, NoneFrom, IsOvertaken};
ghost use Rattle.commit_laws.specs.CommitLaws.{state_now, StillStands};
ghost use Rattle.candidate_check.specs.Taken.{IsFirstGone};
ghost use Rattle.overtaken_check.specs.Scans.{cause_of, candidate_of, IsHindered, IsUnhindered, IsTakenFrom, IsFree};
ghost use Rattle.overtaken_check.specs.Scans.{IsWhy, WereClaimed, WasFoundFor, MayBeFound};
ghost use Rattle.overtaken_check.specs.Costs.{scan_most, claims_found};
ghost use Rattle.resource_graph.specs.NamedGraph.{vertices_of};

use crate::causes::Cause;
use crate::scans::{first_block, first_cancel, first_delay};
use candidate_check::still_free;
use earliest_search::window_at;
use flux_defs::{Ask, Claim, Command, Entry, FreeView, List, Steps, Verdict, Window};
use resource_graph::Graph;
use snapshot_store::Pages;
use std::sync::ledger::Ledger;

/// The first cancel from the place on, or else the first advance to a moment that comes too late.
fn hindered<L: Ledger>(
    journal: &Pages<Entry>,
    place: u64,
    moment: u64,
    last: Option<u64>,
    steps: &mut Steps<L>,
) -> Option<Cause>
    requires { moment ≡ (state_at journal.now place).moment }
    ensures answer { MatchOption result (IsUnhindered last journal.now place) (IsHindered last journal.now place) }
    ensures work { steps.new ≤ steps.old + 2 * scan_most journal.now place }
{
    if let Some(at) = first_cancel(journal, place, steps) {
        return Some(Cause::Freed { at });
    }
    match first_delay(journal, place, moment, last, steps) {
        None => None,
        Some(at) => Some(Cause::Late { at }),
    }
}

/// The first entry in the way of the claim with this index, which isn't available any more.
fn blocked<L: Ledger>(
    graph: &Graph,
    window: Window,
    claims: &List<Claim>,
    index: usize,
    journal: &Pages<Entry>,
    place: u64,
    steps: &mut Steps<L>,
) -> Cause
    requires frees { NoneFrom (Frees journal.now) place }
    requires was { WereClaimed (vertices_of graph.now) (present_of (state_at journal.now place)) window claims.now }
    requires gone { IsFirstGone (vertices_of graph.now) (present_of (state_now journal.now)) window claims.now index }
    ensures answer { IsTakenFrom (vertices_of graph.now)
        (present_of (state_now journal.now)) window claims.now journal.now place
        result }
    ensures work { steps.new ≤ steps.old + scan_most journal.now place }
{
    match claims.get(index) {
        None => unreachable!(),
        Some(claim) => match first_block(graph, window, *claim, journal, place, steps) {
            None => unreachable!(),
            Some(at) => Cause::Taken {
                at,
                claim: index as u64,
            },
        },
    }
}

/// The first claim that isn't available any more, with the first entry in its way.
fn taken<F: FreeView, L: Ledger>(
    view: &F,
    graph: &Graph,
    window: Window,
    claims: &List<Claim>,
    journal: &Pages<Entry>,
    place: u64,
    steps: &mut Steps<L>,
) -> Option<Cause>
    requires over { F.graph view.now ≡ vertices_of graph.now }
    requires jobs { F.stands_for view.now (present_of (state_now journal.now)) }
    requires window { window.from < window.to }
    requires frees { NoneFrom (Frees journal.now) place }
    requires was { WereClaimed (vertices_of graph.now) (present_of (state_at journal.now place)) window claims.now }
    ensures answer { MatchOption result
        (AllByRecursion (IsAvailable (no_bars (vertices_of graph.now) (present_of (state_now journal.now))) window)
        claims.now)
        (IsTakenFrom (vertices_of graph.now) (present_of (state_now journal.now)) window claims.now journal.now place) }
    ensures work { steps.new ≤ steps.old + 2 * F.cost view.now * length claims.now + scan_most journal.now place }
{
    match still_free(view, claims, window, steps) {
        None => None,
        Some(index) => Some(blocked(graph, window, claims, index, journal, place, steps)),
    }
}

/// What overtook claims that were found for an ask: time may have moved on to `last`, if to any moment.
fn found_overtaken<F: FreeView, L: Ledger>(
    view: &F,
    graph: &Graph,
    horizon: u64,
    ask: &Ask,
    start: u64,
    claims: &List<Claim>,
    journal: &Pages<Entry>,
    place: u64,
    moment: u64,
    last: Option<u64>,
    steps: &mut Steps<L>,
) -> Option<Cause>
    requires over { F.graph view.now ≡ vertices_of graph.now }
    requires jobs { F.stands_for view.now (present_of (state_now journal.now)) }
    requires moment { moment ≡ (state_at journal.now place).moment }
    requires found { WasFoundFor (vertices_of graph.now) horizon (present_of (state_at journal.now place)) ask.now start
        claims.now }
    ensures answer { MatchOption result
        (IsFree (vertices_of graph.now) (window_of horizon ask.now start) claims.now last journal.now place)
        (IsWhy (vertices_of graph.now) (window_of horizon ask.now start) claims.now last journal.now place) }
    ensures work { steps.new ≤ steps.old + 2 * F.cost view.now * length claims.now + 3 * scan_most journal.now place }
{
    if place >= journal.len() {
        return None;
    }
    match hindered(journal, place, moment, last, steps) {
        Some(cause) => Some(cause),
        None => {
            let window = window_at(horizon, ask, start);
            taken(view, graph, window, claims, journal, place, steps)
        }
    }
}

/// The first cause by which the candidate is overtaken: what a search found of the command where so many entries were
/// searched, at the moment there. `None` exactly where nothing overtook it. It takes no memory, two looks at the view
/// for each claim that was found, and three at each entry since; the graph's size doesn't count.
pub fn overtaken<F: FreeView, L: Ledger>(
    view: &F,
    graph: &Graph,
    horizon: u64,
    journal: &Pages<Entry>,
    command: &Command,
    place: u64,
    moment: u64,
    verdict: &Verdict,
    steps: &mut Steps<L>,
) -> Option<Cause>
    requires over { F.graph view.now ≡ vertices_of graph.now }
    requires jobs { F.stands_for view.now (present_of (state_now journal.now)) }
    requires moment { moment ≡ (state_at journal.now place).moment }
    requires found { MayBeFound (vertices_of graph.now) horizon (present_of (state_at journal.now place)) verdict.now
        command.now }
    ensures answer { (g : Setting) → g.graph.vertices ≡ (vertices_of graph.now) → g.horizon ≡ horizon →
        MatchOption result (StillStands g journal.now (candidate_of command.now place verdict.now))
        (λ cause. IsOvertaken g journal.now (candidate_of command.now place verdict.now) (cause_of cause)) }
    ensures work { steps.new ≤ steps.old + 2 * F.cost view.now * length
        (claims_found verdict.now) + 3 * scan_most journal.now place }
{
    match verdict {
        Verdict::Found { start, claims } => match command {
            Command::Allocate { ask, .. } => found_overtaken(
                view, graph, horizon, ask, *start, claims, journal, place, moment, None, steps,
            ),
            Command::Reserve { ask, .. } => found_overtaken(
                view,
                graph,
                horizon,
                ask,
                *start,
                claims,
                journal,
                place,
                moment,
                Some(*start),
                steps,
            ),
            _ => unreachable!(),
        },
        Verdict::NoFit => hindered(journal, place, moment, None, steps),
        _ => None,
    }
}
