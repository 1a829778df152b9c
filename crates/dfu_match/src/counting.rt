//! How far needs can be filled, without writing a claim: it takes no memory.
ghost use Rattle.std.specs.Prelude.{◌≡◌, ℕ, ◌+◌, ◌*◌, ◌<◌, ◌≤◌, length, List};
ghost use Rattle.flux_defs.specs.declared.vertices.Vertex.{Vertex};
ghost use Rattle.flux_defs.specs.declared.claims.Claim.{Claim};
ghost use Rattle.flux_defs.specs.Graph.{Scope, IsIn};
ghost use Rattle.flux_defs.specs.Needs.{IsOfNeed, IsValidNeed, AreValidNeeds};
ghost use Rattle.flux_defs.specs.Lowest.{CanServe};
ghost use Rattle.match_laws.specs.Offers.{IsGreatest, SomeGroup, SomeFits};
ghost use Rattle.dfu_match.specs.Searches.{open_to, scope_of, IsOpenScope, IsScope, MayAsk, MayScale};
ghost use Rattle.dfu_match.specs.Tables.{all_of, needs_all, StandsAt, StandAt};
ghost use Rattle.dfu_match.specs.Pairs.{HasEachOpen, IsClear, IsClearWithin, IsClearScope};
ghost use Rattle.dfu_match.specs.Pairs.{IsPlaceOf, IsPlaceOfAll, IsSpanOf};
ghost use Rattle.dfu_match.specs.Pairs.{TakesEach, asked_totals};
ghost use Rattle.flux_defs.specs.declared.requests.Need.{Need};
ghost use Rattle.flux_defs.specs.Present.{InEach};
ghost use Rattle.resource_graph.specs.Tables.{IsPast};
ghost use Rattle.std.specs.List.{AllByRecursion};
ghost use Rattle.resource_graph.specs.NamedGraph.{vertices_of};

use crate::scopes::{kind_of, span_of};
use crate::search::{Search, admits, free};
use crate::singles::{reach_singles, serves_one_each};
use crate::walking::{index_after, index_within, next_open_until};
use flux_defs::{FreeView, List, Need, Steps};
use std::sync::ledger::Ledger;

/// As much of the need as the scope, which isn't closed, can serve, at most so much.
#[cycle(counting)]
fn reach<F: FreeView, L: Ledger>(
    s: &Search<F>,
    need: &Need,
    index: usize,
    scope: Option<u32>,
    most: u128,
    steps: &mut Steps<L>,
) -> u128
    requires stands { StandsAt (needs_all s.now.needs.now) s.now.wanted.now index need.now }
    requires scope { IsScope (vertices_of s.now.graph.now) scope }
    requires open { IsOpenScope (vertices_of s.now.graph.now) (F.stands_for s.now.view.now) s.now.barred.now
        s.now.window scope }
    requires valid { IsValidNeed (vertices_of s.now.graph.now) need.now }
    requires may { MayAsk most need.now }
    ensures within { result ≤ most }
    ensures greatest { InEach (F.stands_for s.now.view.now)
        (λ present. let vs : List Vertex = vertices_of s.now.graph.now in
        let ok : Claim → Type 0 = open_to vs present s.now.barred.now s.now.window in
        IsGreatest (SomeGroup vs ok (scope_of scope) need.now) most result) }
    ensures work { InEach (F.stands_for s.now.view.now) (λ present. (place from to : ℕ) →
        (let vs : List Vertex = vertices_of s.now.graph.now in
        let keeps : ℕ → ℕ → Type 0 = asked_totals s.now.wanted.now (F.keeps s.now.view.now) in
        let all : List Need = needs_all s.now.needs.now in
        IsPlaceOf all place need.now → IsClearScope vs present s.now.window keeps scope need.now →
        IsSpanOf vs scope from to →
        TakesEach (HasEachOpen vs present s.now.window keeps all) ((length all + 2) * F.cost s.now.view.now)
        steps.old steps.new place (place + length (all_of need.now)) from to)) }
{
    s.graph.is_valid();
    let Some(kind) = kind_of(s.graph, need) else {
        return 0;
    };
    if serves_one_each(s, need) {
        return reach_singles(s, need, kind, scope, most);
    }
    let span = span_of(s.graph, scope);
    let mut reached = 0;
    let mut at = span.from;
    while reached < most {
        let mut until = s.window.from;
        let Some(vertex) = next_open_until(s, need, index, kind, at, span.to, &mut until, steps)
        else {
            return reached;
        };
        reached += u128::from(serves(s, need, index, vertex, scope, most - reached, steps));
        at = s.graph.past(vertex);
    }
    reached
}

/// As much of the need as the vertex can serve, at most so much, where `entered` isn't closed.
#[cycle(counting)]
#[inline(always)]
pub(crate) fn serves<F: FreeView, L: Ledger>(
    s: &Search<F>,
    need: &Need,
    index: usize,
    vertex: u32,
    entered: Option<u32>,
    most: u128,
    steps: &mut Steps<L>,
) -> u64
    requires stands { StandsAt (needs_all s.now.needs.now) s.now.wanted.now index need.now }
    requires vertex { vertex < length (vertices_of s.now.graph.now) }
    requires open { IsOpenScope (vertices_of s.now.graph.now) (F.stands_for s.now.view.now) s.now.barred.now
        s.now.window entered }
    requires of_need { IsOfNeed (vertices_of s.now.graph.now) need.now vertex }
    requires valid { IsValidNeed (vertices_of s.now.graph.now) need.now }
    requires may { MayAsk most need.now }
    requires some { 1 ≤ most }
    ensures within { result ≤ most }
    ensures greatest { InEach (F.stands_for s.now.view.now)
        (λ present. let vs : List Vertex = vertices_of s.now.graph.now in
        let ok : Claim → Type 0 = open_to vs present s.now.barred.now s.now.window in
        (scope : Scope) → IsIn vs scope vertex →
        IsGreatest (CanServe vs ok scope need.now vertex) most result) }
    ensures work { InEach (F.stands_for s.now.view.now) (λ present. (place past : ℕ) →
        (let vs : List Vertex = vertices_of s.now.graph.now in
        let keeps : ℕ → ℕ → Type 0 = asked_totals s.now.wanted.now (F.keeps s.now.view.now) in
        let all : List Need = needs_all s.now.needs.now in
        IsPlaceOf all place need.now → IsClearWithin vs present s.now.window keeps need.now vertex →
        IsPast vs vertex past →
        TakesEach (HasEachOpen vs present s.now.window keeps all) ((length all + 2) * F.cost s.now.view.now)
        (steps.old + 2 * F.cost s.now.view.now) steps.new (place + 1) (place + length (all_of need.now))
        (vertex + 1) past)) }
{
    s.graph.is_valid();
    match need {
        Need::Vert { hold, needs, .. } => {
            if !admits(s, *hold, vertex, entered, steps) {
                return 0;
            }
            if needs.is_empty() {
                return 1;
            }
            copies(
                s,
                needs,
                index_within(s, need, index),
                Some(vertex),
                1,
                steps,
            )
        }
        Need::Pool { .. } => u128::from(free(s, vertex, steps)).min(most) as u64,
        Need::Spread { needs, .. } => {
            if !admits(s, false, vertex, entered, steps) {
                return 0;
            }
            copies(
                s,
                needs,
                index_within(s, need, index),
                Some(vertex),
                most as u64,
                steps,
            )
        }
    }
}

/// The greatest number of copies of the needs that fit in the scope, which isn't closed, at most so many: each need
/// bounds it by what it can be filled with.
#[cycle(counting)]
pub(crate) fn copies<F: FreeView, L: Ledger>(
    s: &Search<F>,
    needs: &List<Need>,
    index: usize,
    scope: Option<u32>,
    most: u64,
    steps: &mut Steps<L>,
) -> u64
    requires stand { StandAt (needs_all s.now.needs.now) s.now.wanted.now index needs.now }
    requires scope { IsScope (vertices_of s.now.graph.now) scope }
    requires open { IsOpenScope (vertices_of s.now.graph.now) (F.stands_for s.now.view.now) s.now.barred.now
        s.now.window scope }
    requires valid { AreValidNeeds (vertices_of s.now.graph.now) needs.now }
    requires may { MayScale most needs.now }
    ensures within { result ≤ most }
    ensures greatest { InEach (F.stands_for s.now.view.now)
        (λ present. let vs : List Vertex = vertices_of s.now.graph.now in
        let ok : Claim → Type 0 = open_to vs present s.now.barred.now s.now.window in
        IsGreatest (SomeFits vs ok (scope_of scope) needs.now) most result) }
    ensures work { InEach (F.stands_for s.now.view.now) (λ present. (place from to : ℕ) →
        (let vs : List Vertex = vertices_of s.now.graph.now in
        let keeps : ℕ → ℕ → Type 0 = asked_totals s.now.wanted.now (F.keeps s.now.view.now) in
        let all : List Need = needs_all s.now.needs.now in
        IsPlaceOfAll all place needs.now →
        AllByRecursion (IsClearScope vs present s.now.window keeps scope) needs.now → IsSpanOf vs scope from to →
        TakesEach (HasEachOpen vs present s.now.window keeps all) ((length all + 2) * F.cost s.now.view.now)
        steps.old steps.new place (place + length (needs_all needs.now)) from to)) }
{
    let mut best = most;
    let mut at = index;
    for need in needs.items() {
        let amount = need.amount();
        let reached = reach(
            s,
            need,
            at,
            scope,
            u128::from(best) * u128::from(amount),
            steps,
        );
        best = whole_times(reached, amount, best);
        if best == 0 {
            return 0;
        }
        at = index_after(s, need, at);
    }
    best
}

/// How many times the amount is in what was reached, which is at most so many times.
pub(crate) fn whole_times(reached: u128, amount: u64, most: u64) -> u64
    requires some { 1 ≤ amount }
    requires within { reached ≤ most * amount }
    ensures low { result * amount ≤ reached }
    ensures high { reached < (result + 1) * amount }
    ensures within { result ≤ most }
{
    match u64::try_from(reached) {
        Ok(few) => few / amount,
        Err(_) => (reached / u128::from(amount)) as u64,
    }
}
