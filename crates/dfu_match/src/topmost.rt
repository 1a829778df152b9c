//! Writes the lowest-first claims of an ask's own needs, and notes how much each vertex serves of one of them.
ghost use Rattle.std.specs.Prelude.{◌≡◌, ℕ, ◌+◌, ◌*◌, ◌<◌, ◌≤◌, ◌∷◌, [], length, List, IfOk, IfSome, Some};
ghost use Rattle.std.specs.Prelude.{MatchBool, MatchOption, None, slice_get};
ghost use Rattle.flux_defs.specs.declared.vertices.Vertex.{Vertex};
ghost use Rattle.flux_defs.specs.declared.claims.Claim.{Claim};
ghost use Rattle.flux_defs.specs.declared.claims.Window.{Window};
ghost use Rattle.flux_defs.specs.declared.requests.Need.{Need};
ghost use Rattle.flux_defs.specs.Graph.{Everywhere, HasKind};
ghost use Rattle.flux_defs.specs.Later.{ReachesOver};
ghost use Rattle.flux_defs.specs.Needs.{amount_of, IsOfNeed, IsValidNeed, AreValidNeeds};
ghost use Rattle.flux_defs.specs.Lowest.{Lowest};
ghost use Rattle.flux_defs.specs.Present.{InEach};
ghost use Rattle.match_laws.specs.Offers.{Extends, SomeGroup, SomeFits, LowestGroup};
ghost use Rattle.dfu_match.specs.Searches.{open_to, IsKindOfNeed};
ghost use Rattle.dfu_match.specs.Tables.{all_of, needs_all, StandsAt};
ghost use Rattle.dfu_match.specs.Walks.{ServesNone};
ghost use Rattle.dfu_match.specs.Pairs.{HasEachOpen, IsClearWithin, IsClearBefore, IsClearScope, IsPlaceOf};
ghost use Rattle.dfu_match.specs.Pairs.{Pair, IsPlaceOfAll, IsSpanOf, AreLooks, AreLooksAll, TakesEach, TakesApart};
ghost use Rattle.dfu_match.specs.Pairs.{asked_totals};
ghost use Rattle.dfu_match.specs.Rows.{IsRowOf, Knows, whole_of};
ghost use Rattle.std.specs.List.{AllByRecursion};
ghost use Rattle.resource_graph.specs.NamedGraph.{vertices_of};

use crate::knowing::{Known, Row};
use crate::scopes::{kind_of, span_of};
use crate::search::Search;
use crate::walking::{index_after, top_within};
use crate::writing::offer;
use flux_defs::{Claim, FreeView, Need, Steps};
use std::alloc::AllocError;
use std::sync::ledger::Ledger;

/// As much of the need as is ever asked of one vertex.
pub(crate) fn whole_of(need: &Need) -> u64
    ensures { result ≡ whole_of need.now }
{
    match need {
        Need::Vert { .. } => 1,
        Need::Pool { quantity, .. } => *quantity,
        Need::Spread { count, .. } => *count,
    }
}

/// The row of a vertex of which no more is known than that it seems to serve all that is asked of it, or that it may
/// serve more than it did over this window.
fn unknown<F: FreeView>(s: &Search<F>, need: &Need, vertex: u32, serves: bool) -> Row
    requires of_need { IsOfNeed (vertices_of s.now.graph.now) need.now vertex }
    ensures row { IsRowOf (vertices_of s.now.graph.now) (F.stands_for s.now.view.now) s.now.barred.now
        s.now.window need.now result }
    ensures same { result.vertex ≡ vertex }
{
    let moment = if serves { u64::MAX } else { 0 };
    Row {
        vertex,
        most: whole_of(need),
        moment,
    }
}

/// Notes that the vertices of the need's kind from `from` on and before `past` serve nothing until this moment, if any
/// are noted.
fn note_short<F: FreeView>(
    s: &Search<F>,
    need: &Need,
    own: usize,
    kind: u32,
    from: u32,
    past: u32,
    moment: u64,
    known: &mut Known,
    count: &mut usize,
)
    requires valid { IsValidNeed (vertices_of s.now.graph.now) need.now }
    requires of_kind { IsKindOfNeed (vertices_of s.now.graph.now) need.now (Some kind) }
    requires within { past ≤ length (vertices_of s.now.graph.now) }
    requires of_own { slice_get s.now.needs.now own ≡ Some need.now }
    requires none { InEach (F.stands_for s.now.view.now) (λ present. (w : Window) →
        ReachesOver s.now.window moment w → ServesNone (vertices_of s.now.graph.now)
        (open_to (vertices_of s.now.graph.now) present s.now.barred.now w) need.now from past) }
    requires known { Knows (vertices_of s.now.graph.now) (F.stands_for s.now.view.now) s.now.barred.now
        s.now.needs.now s.now.window known.old }
    ensures known { Knows (vertices_of s.now.graph.now) (F.stands_for s.now.view.now) s.now.barred.now
        s.now.needs.now s.now.window known.new }
    ensures own { known.new.own ≡ known.old.own }
{
    if !known.notes_of(own) {
        return;
    }
    s.graph.is_valid();
    let mut at = from;
    'each: while at < past {
        let Some(vertex) = s.graph.next_of_kind(kind, at, past) else {
            known.pass(own, at, past);
            return;
        };
        let next = s.graph.past(vertex);
        let row = Row {
            vertex,
            most: 0,
            moment,
        };
        known.note(own, *count, at, row, next);
        *count = count.saturating_add(1);
        at = next;
    }
}

/// The least vertex of the need's kind from `from` on and before `to` that lies in no subtree which is short for the
/// need, and of which isn't known that it serves nothing. Those passed over can't serve it. What is found is noted.
fn next_open_known<F: FreeView, L: Ledger>(
    s: &Search<F>,
    need: &Need,
    index: usize,
    own: usize,
    kind: u32,
    from: u32,
    to: u32,
    known: &mut Known,
    count: &mut usize,
    steps: &mut Steps<L>,
) -> Option<u32>
    requires stands { StandsAt (needs_all s.now.needs.now) s.now.wanted.now index need.now }
    requires valid { IsValidNeed (vertices_of s.now.graph.now) need.now }
    requires of_kind { IsKindOfNeed (vertices_of s.now.graph.now) need.now (Some kind) }
    requires within { to ≤ length (vertices_of s.now.graph.now) }
    requires of_own { slice_get s.now.needs.now own ≡ Some need.now }
    requires known { Knows (vertices_of s.now.graph.now) (F.stands_for s.now.view.now) s.now.barred.now
        s.now.needs.now s.now.window known.old }
    ensures of_kind { IfSome result (λ vertex. HasKind (vertices_of s.now.graph.now) kind vertex
        × (from ≤ vertex) × (vertex < to)) }
    ensures skipped { InEach (F.stands_for s.now.view.now)
        (λ present. let vs : List Vertex = vertices_of s.now.graph.now in
        let ok : Claim → Type 0 = open_to vs present s.now.barred.now s.now.window in
        MatchOption result (ServesNone vs ok need.now from to) (ServesNone vs ok need.now from)) }
    ensures clear { InEach (F.stands_for s.now.view.now)
        (λ present. let vs : List Vertex = vertices_of s.now.graph.now in
        let keeps : ℕ → ℕ → Type 0 = asked_totals s.now.wanted.now (F.keeps s.now.view.now) in
        IsClearBefore vs present s.now.window keeps need.now from to →
        IfSome result (IsClearWithin vs present s.now.window keeps need.now)) }
    ensures known { Knows (vertices_of s.now.graph.now) (F.stands_for s.now.view.now) s.now.barred.now
        s.now.needs.now s.now.window known.new }
    ensures own { known.new.own ≡ known.old.own }
    ensures work { InEach (F.stands_for s.now.view.now) (λ present. (place : ℕ) →
        (let vs : List Vertex = vertices_of s.now.graph.now in
        let keeps : ℕ → ℕ → Type 0 = asked_totals s.now.wanted.now (F.keeps s.now.view.now) in
        let all : List Need = needs_all s.now.needs.now in
        let taken : ℕ → Type 0 = TakesEach (HasEachOpen vs present s.now.window keeps all)
        (length (all_of need.now) * F.cost s.now.view.now) steps.old steps.new place (place + 1) from in
        IsPlaceOf all place need.now → IsClearBefore vs present s.now.window keeps need.now from to →
        MatchOption result (taken to) (λ vertex. taken (vertex + 1)))) }
{
    s.graph.is_valid();
    let mut at = from;
    let mut low = from;
    'look: loop {
        let Some(vertex) = s.graph.next_of_kind(kind, at, to) else {
            known.pass(own, at, to);
            return None;
        };
        if s.shut && s.graph.rank_at(vertex).is_some() {
            return None;
        }
        let next = s.graph.past(vertex);
        if known.serves_none(own, *count, vertex, s.window.from) {
            *count = known.first_serving(*count, s.window.from);
            at = next.max(known.reach_before(*count));
        } else {
            let mut moment = u64::MAX;
            match top_within(s, need, index, low, vertex, &mut moment, steps) {
                None => {
                    let row = unknown(s, need, vertex, false);
                    known.note(own, *count, at, row, next);
                    return Some(vertex);
                }
                Some(top) => {
                    let past = s.graph.past(top);
                    note_short(s, need, own, kind, at, past, moment, known, count);
                    at = past;
                    low = past;
                }
            }
        }
    }
}

/// Writes the need's lowest-first group of its amount. `false` exactly where there is none; what was written by then
/// is of no use. It looks at each vertex of the need once, and within it as `offer` does.
fn write_top_group<F: FreeView, L: Ledger>(
    s: &Search<F>,
    need: &Need,
    index: usize,
    own: usize,
    known: &mut Known,
    out: &mut Vec<Claim>,
    steps: &mut Steps<L>,
) -> Result<bool, AllocError>
    requires stands { StandsAt (needs_all s.now.needs.now) s.now.wanted.now index need.now }
    requires valid { IsValidNeed (vertices_of s.now.graph.now) need.now }
    requires of_own { slice_get s.now.needs.now own ≡ Some need.now }
    requires known { Knows (vertices_of s.now.graph.now) (F.stands_for s.now.view.now) s.now.barred.now
        s.now.needs.now s.now.window known.old }
    ensures written { IfOk result (λ filled. Extends out.old.items out.new.items
        (λ claims. InEach (F.stands_for s.now.view.now)
        (λ present. let vs : List Vertex = vertices_of s.now.graph.now in
        let ok : Claim → Type 0 = open_to vs present s.now.barred.now s.now.window in
        MatchBool filled
        (LowestGroup vs ok Everywhere need.now (1 * amount_of need.now) claims)
        (SomeGroup vs ok Everywhere need.now (1 * amount_of need.now) → ⊥)))) }
    ensures known { Knows (vertices_of s.now.graph.now) (F.stands_for s.now.view.now) s.now.barred.now
        s.now.needs.now s.now.window known.new }
    ensures work { InEach (F.stands_for s.now.view.now) (λ present. (place from to times : ℕ) →
        (let vs : List Vertex = vertices_of s.now.graph.now in
        let keeps : ℕ → ℕ → Type 0 = asked_totals s.now.wanted.now (F.keeps s.now.view.now) in
        let all : List Need = needs_all s.now.needs.now in
        let look : ℕ = (length all + 2) * F.cost s.now.view.now in
        IsPlaceOf all place need.now → IsClearScope vs present s.now.window keeps None need.now →
        IsSpanOf vs None from to → AreLooks times need.now →
        TakesApart (HasEachOpen vs present s.now.window keeps all) look (times * look)
        steps.old steps.new place (place + length (all_of need.now)) from to)) }
{
    s.graph.is_valid();
    let Some(kind) = kind_of(s.graph, need) else {
        return Ok(false);
    };
    let whole = whole_of(need);
    let mut missing = u128::from(need.amount());
    let span = span_of(s.graph, None);
    let mut at = span.from;
    let mut count = 0;
    while missing > 0 {
        let Some(vertex) = next_open_known(
            s, need, index, own, kind, at, span.to, known, &mut count, steps,
        ) else {
            return Ok(false);
        };
        let next = s.graph.past(vertex);
        let served = offer(s, need, index, vertex, None, missing, out, steps)?;
        let all = served >= whole || u128::from(served) >= missing;
        let row = unknown(s, need, vertex, all);
        known.put(own, count, row);
        count = count.saturating_add(1);
        missing -= u128::from(served);
        at = next;
    }
    Ok(true)
}

/// Writes the lowest-first claims of the ask's own needs. `false` exactly where no claims fit; what was written by
/// then is of no use, and what is known is of the need for which there is no group.
pub(crate) fn write_top<F: FreeView, L: Ledger>(
    s: &Search<F>,
    known: &mut Known,
    out: &mut Vec<Claim>,
    steps: &mut Steps<L>,
) -> Result<bool, AllocError>
    requires valid { AreValidNeeds (vertices_of s.now.graph.now) s.now.needs.now }
    requires known { Knows (vertices_of s.now.graph.now) (F.stands_for s.now.view.now) s.now.barred.now
        s.now.needs.now s.now.window known.old }
    ensures written { IfOk result (λ fit. Extends out.old.items out.new.items
        (λ claims. InEach (F.stands_for s.now.view.now)
        (λ present. let vs : List Vertex = vertices_of s.now.graph.now in
        let ok : Claim → Type 0 = open_to vs present s.now.barred.now s.now.window in
        MatchBool fit
        (Lowest vs ok 1 Everywhere s.now.needs.now claims)
        (SomeFits vs ok Everywhere s.now.needs.now 1 → ⊥)))) }
    ensures known { Knows (vertices_of s.now.graph.now) (F.stands_for s.now.view.now) s.now.barred.now
        s.now.needs.now s.now.window known.new }
    ensures work { InEach (F.stands_for s.now.view.now) (λ present. (place from to times : ℕ) →
        (let vs : List Vertex = vertices_of s.now.graph.now in
        let keeps : ℕ → ℕ → Type 0 = asked_totals s.now.wanted.now (F.keeps s.now.view.now) in
        let all : List Need = needs_all s.now.needs.now in
        let look : ℕ = (length all + 2) * F.cost s.now.view.now in
        let each : List Pair → Type 0 = HasEachOpen vs present s.now.window keeps all in
        IsPlaceOfAll all place s.now.needs.now →
        AllByRecursion (IsClearScope vs present s.now.window keeps None) s.now.needs.now → IsSpanOf vs None from to →
        AreLooksAll times s.now.needs.now →
        TakesEach each (times * look) steps.old steps.new place (place + length (needs_all s.now.needs.now)) from to
        × ((need : Need) → s.now.needs.now ≡ need ∷ [] →
        TakesApart each look (times * look) steps.old steps.new place (place + length (all_of need)) from to))) }
{
    let mut at = 0;
    let mut own: usize = 0;
    for need in s.needs.items() {
        let filled = write_top_group(s, need, at, own, known, out, steps)?;
        if !filled {
            known.turn_to(own);
            return Ok(false);
        }
        at = index_after(s, need, at);
        own = own.saturating_add(1);
    }
    Ok(true)
}
