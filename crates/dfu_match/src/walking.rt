//! The walk over the vertices of a need, which enters no subtree that is short for it.
ghost use Rattle.std.specs.Prelude.{◌≡◌, ℕ, ◌+◌, ◌*◌, ◌⊎◌, ◌<◌, ◌≤◌, length, List, IfSome, IfNone, IsTrue};
ghost use Rattle.std.specs.Prelude.{[], MatchOption};
ghost use Rattle.flux_defs.specs.declared.vertices.Vertex.{Vertex};
ghost use Rattle.flux_defs.specs.declared.claims.Claim.{Claim};
ghost use Rattle.flux_defs.specs.declared.requests.Need.{Need};
ghost use Rattle.flux_defs.specs.Graph.{HasKind};
ghost use Rattle.flux_defs.specs.Needs.{IsValidNeed};
ghost use Rattle.flux_defs.specs.declared.claims.Window.{Window};
ghost use Rattle.prune_filters.specs.Shorts.{IsShortFor};
ghost use Rattle.dfu_match.specs.Searches.{open_to, IsKindOfNeed};
ghost use Rattle.dfu_match.specs.Tables.{all_of, needs_all, StandsAt};
ghost use Rattle.dfu_match.specs.Walks.{IsParentFrom, ServesNone};
ghost use Rattle.dfu_match.specs.Pairs.{AsksWithin, HasEachOpen, IsClearWithin, IsClearBefore, IsPlaceOf};
ghost use Rattle.dfu_match.specs.Pairs.{asked_totals, TakesEach};
ghost use Rattle.dfu_match.specs.Tops.{IsTopFrom, TellsShort, TellsClear, TakesTops};
ghost use Rattle.flux_defs.specs.Later.{IsSoUntil, ReachesOver};
ghost use Rattle.flux_defs.specs.Present.{InEach};
ghost use Rattle.dfu_match.specs.Reaches.{FallsWithin};
ghost use Rattle.resource_graph.specs.NamedGraph.{vertices_of};

use crate::search::Search;
use flux_defs::{FreeView, Need, Steps};
use prune_filters::short_until;
use resource_graph::Graph;
use std::sync::ledger::Ledger;

/// Until when the vertex is short for the need at this index of all needs: over each window that reaches over what is
/// left of this one from that moment on; none where it isn't over this one, as where there is no table.
fn short_at<F: FreeView, L: Ledger>(
    s: &Search<F>,
    need: &Need,
    index: usize,
    vertex: u32,
    steps: &mut Steps<L>,
) -> Option<u64>
    requires stands { StandsAt (needs_all s.now.needs.now) s.now.wanted.now index need.now }
    requires vertex { vertex < length (vertices_of s.now.graph.now) }
    ensures short { InEach (F.stands_for s.now.view.now)
        (λ present. IsSoUntil (λ w. IsShortFor (vertices_of s.now.graph.now) present w
        (asked_totals s.now.wanted.now (F.keeps s.now.view.now)) need.now vertex) s.now.window result) }
    ensures within { IfSome result (λ m. s.now.window.from ≤ m) }
    ensures work { steps.new ≤ steps.old + length (all_of need.now) * F.cost s.now.view.now }
{
    match s.wanted.get(index) {
        None => None,
        Some(wanted) => short_until(s.view, vertex, &wanted.demands, s.window, steps),
    }
}

/// The vertex's parent, where it has one from `low` on.
#[inline(always)]
pub(crate) fn parent_from(graph: &Graph, vertex: u32, low: u32) -> Option<u32>
    requires vertex { vertex < length (vertices_of graph.now) }
    ensures { IsParentFrom (vertices_of graph.now) vertex low result }
{
    let parent = graph.vertices().items()[vertex as usize].parent?;
    if parent < low {
        return None;
    }
    Some(parent)
}

/// The vertex, where it is short for the need, as it is for all windows that reach over what is left of this one from
/// `until` on, which falls to a moment at which it is short.
fn own_short<F: FreeView, L: Ledger>(
    s: &Search<F>,
    need: &Need,
    index: usize,
    vertex: u32,
    until: &mut u64,
    steps: &mut Steps<L>,
) -> Option<u32>
    requires stands { StandsAt (needs_all s.now.needs.now) s.now.wanted.now index need.now }
    requires vertex { vertex < length (vertices_of s.now.graph.now) }
    ensures same { IfSome result (λ top. top ≡ vertex) }
    ensures short { TellsShort (vertices_of s.now.graph.now) (F.stands_for s.now.view.now)
        (asked_totals s.now.wanted.now (F.keeps s.now.view.now)) s.now.window until.new need.now result }
    ensures enough { InEach (F.stands_for s.now.view.now)
        (λ present. IfNone result (IsShortFor (vertices_of s.now.graph.now) present s.now.window
        (asked_totals s.now.wanted.now (F.keeps s.now.view.now)) need.now vertex → ⊥)) }
    ensures falls { FallsWithin s.now.window until.old until.new }
    ensures work { steps.new ≤ steps.old + length (all_of need.now) * F.cost s.now.view.now }
{
    match short_at(s, need, index, vertex, steps) {
        None => None,
        Some(moment) => {
            *until = moment.min(*until);
            Some(vertex)
        }
    }
}

/// The uppermost of the vertex and those above it, from `low` on, that is short for the need, as `own_short` tells it.
/// It looks from the top, and at none where there is no table.
#[cycle(tops)]
pub(crate) fn top_short<F: FreeView, L: Ledger>(
    s: &Search<F>,
    need: &Need,
    index: usize,
    low: u32,
    vertex: u32,
    until: &mut u64,
    steps: &mut Steps<L>,
) -> Option<u32>
    requires stands { StandsAt (needs_all s.now.needs.now) s.now.wanted.now index need.now }
    requires vertex { vertex < length (vertices_of s.now.graph.now) }
    requires low { low ≤ vertex }
    ensures above { IsTopFrom (vertices_of s.now.graph.now) low vertex result }
    ensures short { TellsShort (vertices_of s.now.graph.now) (F.stands_for s.now.view.now)
        (asked_totals s.now.wanted.now (F.keeps s.now.view.now)) s.now.window until.new need.now result }
    ensures clear { TellsClear (vertices_of s.now.graph.now) (F.stands_for s.now.view.now)
        (asked_totals s.now.wanted.now (F.keeps s.now.view.now)) s.now.window need.now low vertex (vertex + 1) result }
    ensures falls { FallsWithin s.now.window until.old until.new }
    ensures work { TakesTops (vertices_of s.now.graph.now) (F.stands_for s.now.view.now)
        (asked_totals s.now.wanted.now (F.keeps s.now.view.now)) s.now.window (needs_all s.now.needs.now) need.now
        low vertex (vertex + 1) (length (all_of need.now) * F.cost s.now.view.now) steps.old steps.new }
{
    if s.wanted.len() <= index {
        return None;
    }
    s.graph.is_valid();
    match parent_from(s.graph, vertex, low) {
        None => own_short(s, need, index, vertex, until, steps),
        Some(parent) => match top_short(s, need, index, low, parent, until, steps) {
            Some(top) => Some(top),
            None => own_short(s, need, index, vertex, until, steps),
        },
    }
}

/// The uppermost vertex above this one, from `low` on, that is short for the need, as `top_short` tells it.
#[inline(always)]
pub(crate) fn top_over<F: FreeView, L: Ledger>(
    s: &Search<F>,
    need: &Need,
    index: usize,
    low: u32,
    vertex: u32,
    until: &mut u64,
    steps: &mut Steps<L>,
) -> Option<u32>
    requires stands { StandsAt (needs_all s.now.needs.now) s.now.wanted.now index need.now }
    requires vertex { vertex < length (vertices_of s.now.graph.now) }
    requires low { low ≤ vertex }
    ensures above { IsTopFrom (vertices_of s.now.graph.now) low vertex result }
    ensures short { TellsShort (vertices_of s.now.graph.now) (F.stands_for s.now.view.now)
        (asked_totals s.now.wanted.now (F.keeps s.now.view.now)) s.now.window until.new need.now result }
    ensures clear { TellsClear (vertices_of s.now.graph.now) (F.stands_for s.now.view.now)
        (asked_totals s.now.wanted.now (F.keeps s.now.view.now)) s.now.window need.now low vertex vertex result }
    ensures falls { FallsWithin s.now.window until.old until.new }
    ensures work { TakesTops (vertices_of s.now.graph.now) (F.stands_for s.now.view.now)
        (asked_totals s.now.wanted.now (F.keeps s.now.view.now)) s.now.window (needs_all s.now.needs.now) need.now
        low vertex vertex (length (all_of need.now) * F.cost s.now.view.now) steps.old steps.new }
{
    s.graph.is_valid();
    match parent_from(s.graph, vertex, low) {
        None => None,
        Some(parent) => top_short(s, need, index, low, parent, until, steps),
    }
}

/// Whether something is asked within a vertex of the need.
#[inline(always)]
fn asks_within(need: &Need) -> bool
    ensures yes { IsTrue result → AsksWithin need.now }
    ensures no { AsksWithin need.now → IsTrue result }
{
    match need {
        Need::Vert { needs, .. } => !needs.is_empty(),
        Need::Pool { .. } => false,
        Need::Spread { needs, .. } => !needs.is_empty(),
    }
}

/// The uppermost vertex above this one, from `low` on, that is short for the need, as `top_short` tells it, or the
/// vertex itself where something is asked within it: else what is asked of it tells as much.
#[inline(always)]
pub(crate) fn top_within<F: FreeView, L: Ledger>(
    s: &Search<F>,
    need: &Need,
    index: usize,
    low: u32,
    vertex: u32,
    until: &mut u64,
    steps: &mut Steps<L>,
) -> Option<u32>
    requires stands { StandsAt (needs_all s.now.needs.now) s.now.wanted.now index need.now }
    requires vertex { vertex < length (vertices_of s.now.graph.now) }
    requires low { low ≤ vertex }
    ensures above { IsTopFrom (vertices_of s.now.graph.now) low vertex result }
    ensures short { TellsShort (vertices_of s.now.graph.now) (F.stands_for s.now.view.now)
        (asked_totals s.now.wanted.now (F.keeps s.now.view.now)) s.now.window until.new need.now result }
    ensures clear { TellsClear (vertices_of s.now.graph.now) (F.stands_for s.now.view.now)
        (asked_totals s.now.wanted.now (F.keeps s.now.view.now)) s.now.window need.now low vertex vertex result }
    ensures own { InEach (F.stands_for s.now.view.now) (λ present. AsksWithin need.now →
        IfNone result (IsShortFor (vertices_of s.now.graph.now) present s.now.window
        (asked_totals s.now.wanted.now (F.keeps s.now.view.now)) need.now vertex → ⊥)) }
    ensures falls { FallsWithin s.now.window until.old until.new }
    ensures work { TakesTops (vertices_of s.now.graph.now) (F.stands_for s.now.view.now)
        (asked_totals s.now.wanted.now (F.keeps s.now.view.now)) s.now.window (needs_all s.now.needs.now) need.now
        low vertex (vertex + 1) (length (all_of need.now) * F.cost s.now.view.now) steps.old steps.new }
{
    if asks_within(need) {
        return top_short(s, need, index, low, vertex, until, steps);
    }
    top_over(s, need, index, low, vertex, until, steps)
}

/// The least vertex of the need's kind from `from` on and before `to` that lies in no subtree which is short for the
/// need. Those passed over can't serve it over any window that reaches over what is left of this one from `until` on,
/// which falls to the least moment that tells so.
#[inline(always)]
pub(crate) fn next_open_until<F: FreeView, L: Ledger>(
    s: &Search<F>,
    need: &Need,
    index: usize,
    kind: u32,
    from: u32,
    to: u32,
    until: &mut u64,
    steps: &mut Steps<L>,
) -> Option<u32>
    requires stands { StandsAt (needs_all s.now.needs.now) s.now.wanted.now index need.now }
    requires valid { IsValidNeed (vertices_of s.now.graph.now) need.now }
    requires of_kind { IsKindOfNeed (vertices_of s.now.graph.now) need.now (Some kind) }
    requires within { to ≤ length (vertices_of s.now.graph.now) }
    ensures of_kind { IfSome result (λ vertex. HasKind (vertices_of s.now.graph.now) kind vertex
        × (from ≤ vertex) × (vertex < to)) }
    ensures skipped { InEach (F.stands_for s.now.view.now) (λ present. (w : Window) →
        ReachesOver s.now.window until.new w →
        (let vs : List Vertex = vertices_of s.now.graph.now in
        let ok : Claim → Type 0 = open_to vs present s.now.barred.now w in
        MatchOption result (ServesNone vs ok need.now from to) (ServesNone vs ok need.now from))) }
    ensures clear { InEach (F.stands_for s.now.view.now)
        (λ present. let vs : List Vertex = vertices_of s.now.graph.now in
        let keeps : ℕ → ℕ → Type 0 = asked_totals s.now.wanted.now (F.keeps s.now.view.now) in
        IsClearBefore vs present s.now.window keeps need.now from to →
        IfSome result (IsClearWithin vs present s.now.window keeps need.now)) }
    ensures falls { FallsWithin s.now.window until.old until.new }
    ensures work { InEach (F.stands_for s.now.view.now) (λ present. (place : ℕ) →
        (let vs : List Vertex = vertices_of s.now.graph.now in
        let keeps : ℕ → ℕ → Type 0 = asked_totals s.now.wanted.now (F.keeps s.now.view.now) in
        let all : List Need = needs_all s.now.needs.now in
        let taken : ℕ → Type 0 = TakesEach (HasEachOpen vs present s.now.window keeps all)
        (length (all_of need.now) * F.cost s.now.view.now) steps.old steps.new place (place + 1) from in
        IsPlaceOf all place need.now → IsClearBefore vs present s.now.window keeps need.now from to →
        MatchOption result (taken to) (λ vertex. taken (vertex + 1)))) }
{
    s.graph.is_valid();
    let mut at = from;
    'look: loop {
        let Some(vertex) = s.graph.next_of_kind(kind, at, to) else {
            return None;
        };
        if s.shut && s.graph.rank_at(vertex).is_some() {
            return None;
        }
        match top_within(s, need, index, at, vertex, until, steps) {
            None => return Some(vertex),
            Some(top) => at = s.graph.past(top),
        }
    }
}

/// The index after those of the need and of those within it.
pub(crate) fn index_after<F: FreeView>(s: &Search<F>, need: &Need, index: usize) -> usize
    requires stands { StandsAt (needs_all s.now.needs.now) s.now.wanted.now index need.now }
    ensures { (result ≡ index + length (all_of need.now)) ⊎ (s.now.wanted.now ≡ []) }
{
    if s.wanted.len() <= index {
        return index;
    }
    index + s.wanted[index].within
}

/// The index after that of the need, where those within it begin.
pub(crate) fn index_within<F: FreeView>(s: &Search<F>, need: &Need, index: usize) -> usize
    requires stands { StandsAt (needs_all s.now.needs.now) s.now.wanted.now index need.now }
    ensures { (result ≡ index + 1) ⊎ (s.now.wanted.now ≡ []) }
{
    if s.wanted.len() <= index {
        return index;
    }
    index + 1
}
