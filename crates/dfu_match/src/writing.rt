//! Writes the lowest-first claims, each once, at the end of a list.
ghost use Rattle.std.specs.Prelude.{◌≡◌, ℕ, ◌+◌, ◌*◌, ◌<◌, ◌≤◌, [], false, length, List, IfOk, MatchBool, Some};
ghost use Rattle.flux_defs.specs.declared.vertices.Vertex.{Vertex};
ghost use Rattle.flux_defs.specs.declared.claims.Claim.{Claim};
ghost use Rattle.flux_defs.specs.Graph.{Scope, Beneath, IsIn};
ghost use Rattle.flux_defs.specs.Needs.{amount_of, IsOfNeed, IsValidNeed, AreValidNeeds};
ghost use Rattle.flux_defs.specs.Lowest.{CanServe, FollowsPass, LowestPiece, Lowest};
ghost use Rattle.match_laws.specs.Offers.{Extends, Offers, SomeGroup, SomeFits, LowestGroup};
ghost use Rattle.dfu_match.specs.Searches.{open_to, scope_of, IsOpenScope, IsScope, MayAsk, MayScale, MayScaleNeed};
ghost use Rattle.dfu_match.specs.Tables.{all_of, needs_all, StandsAt, StandAt};
ghost use Rattle.dfu_match.specs.Pairs.{HasEachOpen, IsClear, IsClearWithin, IsClearScope};
ghost use Rattle.dfu_match.specs.Pairs.{IsPlaceOf, IsPlaceOfAll, IsSpanOf};
ghost use Rattle.dfu_match.specs.Pairs.{AreLooks, AreLooksAll, TakesEach, asked_totals};
ghost use Rattle.flux_defs.specs.declared.requests.Need.{Need};
ghost use Rattle.flux_defs.specs.Present.{InEach};
ghost use Rattle.resource_graph.specs.Tables.{IsPast};
ghost use Rattle.std.specs.List.{AllByRecursion};
ghost use Rattle.resource_graph.specs.NamedGraph.{vertices_of};

use crate::counting::{copies, serves};
use crate::holding::{held_alone, offer_held};
use crate::scopes::{kind_of, span_of};
use crate::search::{Search, admits};
use crate::walking::{index_after, index_within, next_open_until};
use flux_defs::{Claim, FreeView, List, Need, Steps};
use std::alloc::AllocError;
use std::sync::ledger::Ledger;
use text_forms::push;

/// Writes the lowest-first claims of the needs scaled by `k` in the scope, which isn't closed. `false` exactly where no
/// claims fit; what was written by then is of no use.
#[cycle(writing)]
pub(crate) fn write_needs<F: FreeView, L: Ledger>(
    s: &Search<F>,
    needs: &List<Need>,
    index: usize,
    k: u64,
    scope: Option<u32>,
    out: &mut Vec<Claim>,
    steps: &mut Steps<L>,
) -> Result<bool, AllocError>
    requires stand { StandAt (needs_all s.now.needs.now) s.now.wanted.now index needs.now }
    requires scope { IsScope (vertices_of s.now.graph.now) scope }
    requires open { IsOpenScope (vertices_of s.now.graph.now) (F.stands_for s.now.view.now) s.now.barred.now
        s.now.window scope }
    requires valid { AreValidNeeds (vertices_of s.now.graph.now) needs.now }
    requires may { MayScale k needs.now }
    requires some { 1 ≤ k }
    ensures written { IfOk result (λ fit. Extends out.old.items out.new.items
        (λ claims. InEach (F.stands_for s.now.view.now)
        (λ present. let vs : List Vertex = vertices_of s.now.graph.now in
        let ok : Claim → Type 0 = open_to vs present s.now.barred.now s.now.window in
        MatchBool fit
        (Lowest vs ok k (scope_of scope) needs.now claims)
        (SomeFits vs ok (scope_of scope) needs.now k → ⊥)))) }
    ensures work { InEach (F.stands_for s.now.view.now) (λ present. (place from to times : ℕ) →
        (let vs : List Vertex = vertices_of s.now.graph.now in
        let keeps : ℕ → ℕ → Type 0 = asked_totals s.now.wanted.now (F.keeps s.now.view.now) in
        let all : List Need = needs_all s.now.needs.now in
        IsPlaceOfAll all place needs.now →
        AllByRecursion (IsClearScope vs present s.now.window keeps scope) needs.now → IsSpanOf vs scope from to →
        AreLooksAll times needs.now →
        TakesEach (HasEachOpen vs present s.now.window keeps all) (times * ((length all + 2) * F.cost s.now.view.now))
        steps.old steps.new place (place + length (needs_all needs.now)) from to)) }
{
    let mut at = index;
    for need in needs.items() {
        let filled = write_group(s, need, at, k, scope, out, steps)?;
        if !filled {
            return Ok(false);
        }
        at = index_after(s, need, at);
    }
    Ok(true)
}

/// Writes the need's lowest-first group of `k` times its amount in the scope, which isn't closed. `false` exactly where
/// there is no such group; what was written by then is of no use.
#[cycle(writing)]
fn write_group<F: FreeView, L: Ledger>(
    s: &Search<F>,
    need: &Need,
    index: usize,
    k: u64,
    scope: Option<u32>,
    out: &mut Vec<Claim>,
    steps: &mut Steps<L>,
) -> Result<bool, AllocError>
    requires stands { StandsAt (needs_all s.now.needs.now) s.now.wanted.now index need.now }
    requires scope { IsScope (vertices_of s.now.graph.now) scope }
    requires open { IsOpenScope (vertices_of s.now.graph.now) (F.stands_for s.now.view.now) s.now.barred.now
        s.now.window scope }
    requires valid { IsValidNeed (vertices_of s.now.graph.now) need.now }
    requires may { MayScaleNeed k need.now }
    requires some { 1 ≤ k }
    ensures written { IfOk result (λ filled. Extends out.old.items out.new.items
        (λ claims. InEach (F.stands_for s.now.view.now)
        (λ present. let vs : List Vertex = vertices_of s.now.graph.now in
        let ok : Claim → Type 0 = open_to vs present s.now.barred.now s.now.window in
        MatchBool filled
        (LowestGroup vs ok (scope_of scope) need.now (k * amount_of need.now) claims)
        (SomeGroup vs ok (scope_of scope) need.now (k * amount_of need.now) → ⊥)))) }
    ensures work { InEach (F.stands_for s.now.view.now) (λ present. (place from to times : ℕ) →
        (let vs : List Vertex = vertices_of s.now.graph.now in
        let keeps : ℕ → ℕ → Type 0 = asked_totals s.now.wanted.now (F.keeps s.now.view.now) in
        let all : List Need = needs_all s.now.needs.now in
        IsPlaceOf all place need.now → IsClearScope vs present s.now.window keeps scope need.now →
        IsSpanOf vs scope from to → AreLooks times need.now →
        TakesEach (HasEachOpen vs present s.now.window keeps all) (times * ((length all + 2) * F.cost s.now.view.now))
        steps.old steps.new place (place + length (all_of need.now)) from to)) }
{
    s.graph.is_valid();
    let Some(kind) = kind_of(s.graph, need) else {
        return Ok(false);
    };
    let mut missing = u128::from(k) * u128::from(need.amount());
    let span = span_of(s.graph, scope);
    let mut at = span.from;
    while missing > 0 {
        let mut until = s.window.from;
        let Some(vertex) = next_open_until(s, need, index, kind, at, span.to, &mut until, steps)
        else {
            return Ok(false);
        };
        let next = s.graph.past(vertex);
        let served = offer(s, need, index, vertex, scope, missing, out, steps)?;
        missing -= u128::from(served);
        at = next;
    }
    Ok(true)
}

/// Lets the vertex serve as much of the need as it can, at most so much, and writes its piece, where `entered` isn't
/// closed.
#[cycle(writing)]
pub(crate) fn offer<F: FreeView, L: Ledger>(
    s: &Search<F>,
    need: &Need,
    index: usize,
    vertex: u32,
    entered: Option<u32>,
    most: u128,
    out: &mut Vec<Claim>,
    steps: &mut Steps<L>,
) -> Result<u64, AllocError>
    requires stands { StandsAt (needs_all s.now.needs.now) s.now.wanted.now index need.now }
    requires vertex { vertex < length (vertices_of s.now.graph.now) }
    requires open { IsOpenScope (vertices_of s.now.graph.now) (F.stands_for s.now.view.now) s.now.barred.now
        s.now.window entered }
    requires of_need { IsOfNeed (vertices_of s.now.graph.now) need.now vertex }
    requires valid { IsValidNeed (vertices_of s.now.graph.now) need.now }
    requires may { MayAsk most need.now }
    requires some { 1 ≤ most }
    ensures within { IfOk result (λ served. served ≤ most) }
    ensures offers { IfOk result (λ served. Extends out.old.items out.new.items
        (λ claims. InEach (F.stands_for s.now.view.now)
        (λ present. let vs : List Vertex = vertices_of s.now.graph.now in
        let ok : Claim → Type 0 = open_to vs present s.now.barred.now s.now.window in
        (scope : Scope) → IsIn vs scope vertex →
        Offers (CanServe vs ok scope need.now vertex)
        (LowestPiece vs ok need.now vertex) most served claims))) }
    ensures work { InEach (F.stands_for s.now.view.now) (λ present. (place past times : ℕ) →
        (let vs : List Vertex = vertices_of s.now.graph.now in
        let keeps : ℕ → ℕ → Type 0 = asked_totals s.now.wanted.now (F.keeps s.now.view.now) in
        let all : List Need = needs_all s.now.needs.now in
        IsPlaceOf all place need.now → IsClearWithin vs present s.now.window keeps need.now vertex →
        IsPast vs vertex past → AreLooks times need.now →
        TakesEach (HasEachOpen vs present s.now.window keeps all) (times * ((length all + 2) * F.cost s.now.view.now))
        (steps.old + 2 * F.cost s.now.view.now) steps.new (place + 1) (place + length (all_of need.now))
        (vertex + 1) past)) }
{
    s.graph.is_valid();
    match need {
        Need::Vert { hold, needs, .. } => {
            if !admits(s, *hold, vertex, entered, steps) {
                return Ok(0);
            }
            if *hold {
                if copies(
                    s,
                    needs,
                    index_within(s, need, index),
                    Some(vertex),
                    1,
                    steps,
                ) == 0
                {
                    return Ok(0);
                }
                push(out, Claim::Hold { vertex })?;
                return Ok(1);
            }
            let fit = write_shared(
                s,
                needs,
                index_within(s, need, index),
                1,
                vertex,
                out,
                steps,
            )?;
            if !fit {
                return Ok(0);
            }
            Ok(1)
        }
        Need::Pool { .. } => {
            let quantity = serves(s, need, index, vertex, entered, most, steps);
            if quantity == 0 {
                return Ok(0);
            }
            push(out, Claim::Take { vertex, quantity })?;
            Ok(quantity)
        }
        Need::Spread { needs, .. } => {
            if let Some(held) = held_alone(needs) {
                let within = index_within(s, need, index);
                let copies = offer_held(s, held, within, vertex, entered, most as u64, out, steps)?;
                return Ok(copies);
            }
            let count = serves(s, need, index, vertex, entered, most, steps);
            if count == 0 {
                return Ok(0);
            }
            let fit = write_shared(
                s,
                needs,
                index_within(s, need, index),
                count,
                vertex,
                out,
                steps,
            )?;
            if !fit {
                return Ok(0);
            }
            Ok(count)
        }
    }
}

/// Writes the pass of the vertex, which isn't closed, and the lowest-first claims of the needs scaled by `k` below it.
/// `false` exactly where no claims fit; then nothing is written.
#[cycle(writing)]
fn write_shared<F: FreeView, L: Ledger>(
    s: &Search<F>,
    needs: &List<Need>,
    index: usize,
    k: u64,
    vertex: u32,
    out: &mut Vec<Claim>,
    steps: &mut Steps<L>,
) -> Result<bool, AllocError>
    requires stand { StandAt (needs_all s.now.needs.now) s.now.wanted.now index needs.now }
    requires vertex { vertex < length (vertices_of s.now.graph.now) }
    requires open { IsOpenScope (vertices_of s.now.graph.now) (F.stands_for s.now.view.now) s.now.barred.now
        s.now.window (Some vertex) }
    requires valid { AreValidNeeds (vertices_of s.now.graph.now) needs.now }
    requires may { MayScale k needs.now }
    requires some { 1 ≤ k }
    ensures written { IfOk result (λ fit. Extends out.old.items out.new.items
        (λ claims. (fit ≡ false → claims ≡ []) ×
        (InEach (F.stands_for s.now.view.now) (λ present. let vs : List Vertex = vertices_of s.now.graph.now in
        let ok : Claim → Type 0 = open_to vs present s.now.barred.now s.now.window in
        MatchBool fit
        (FollowsPass vs ok vertex
        (Lowest vs ok k (Beneath vertex) needs.now) claims)
        (SomeFits vs ok (Beneath vertex) needs.now k → ⊥))))) }
    ensures work { InEach (F.stands_for s.now.view.now) (λ present. (place past times : ℕ) →
        (let vs : List Vertex = vertices_of s.now.graph.now in
        let keeps : ℕ → ℕ → Type 0 = asked_totals s.now.wanted.now (F.keeps s.now.view.now) in
        let all : List Need = needs_all s.now.needs.now in
        IsPlaceOfAll all place needs.now →
        AllByRecursion (λ need. IsClear vs present s.now.window keeps need vertex) needs.now → IsPast vs vertex past →
        AreLooksAll times needs.now →
        TakesEach (HasEachOpen vs present s.now.window keeps all) (times * ((length all + 2) * F.cost s.now.view.now))
        steps.old steps.new place (place + length (needs_all needs.now)) (vertex + 1) past)) }
{
    let mark = out.len();
    push(out, Claim::Pass { vertex })?;
    let fit = write_needs(s, needs, index, k, Some(vertex), out, steps)?;
    if fit {
        return Ok(true);
    }
    out.truncate(mark);
    Ok(false)
}
