//! Spreads that ask for held vertices alone, within which nothing is asked. They are written in one pass, which looks
//! at each vertex once, and cut back to whole copies.
ghost use Rattle.std.specs.Prelude.{◌≡◌, ℕ, ◌+◌, ◌*◌, ◌<◌, ◌≤◌, ◌^◌, [], ◌∷◌, length, List, IfOk, MatchOption, Some};
ghost use Rattle.flux_defs.specs.declared.vertices.Vertex.{Vertex};
ghost use Rattle.flux_defs.specs.declared.claims.Claim.{Claim};
ghost use Rattle.flux_defs.specs.declared.requests.Need.{Need, Spread};
ghost use Rattle.flux_defs.specs.Graph.{Scope, IsIn, IsNode};
ghost use Rattle.flux_defs.specs.Needs.{IsOfNeed, IsValidNeed};
ghost use Rattle.flux_defs.specs.Lowest.{CanServe, LowestPiece};
ghost use Rattle.flux_defs.specs.Present.{InEach};
ghost use Rattle.match_laws.specs.Offers.{IsGreatest, Extends, Offers, SomeGroup, LowestGroup};
ghost use Rattle.resource_graph.specs.Tables.{IsPast};
ghost use Rattle.dfu_match.specs.Searches.{open_to, scope_of, IsOpenScope, IsScope};
ghost use Rattle.dfu_match.specs.Tables.{all_of, needs_all, StandsAt};
ghost use Rattle.dfu_match.specs.Walks.{IsPlainHold};
ghost use Rattle.dfu_match.specs.Pairs.{HasEachOpen, IsClear, IsClearScope, IsPlaceOf, IsSpanOf};
ghost use Rattle.dfu_match.specs.Pairs.{TakesEach, asked_totals};
ghost use Rattle.resource_graph.specs.NamedGraph.{vertices_of};

use crate::counting::whole_times;
use crate::scopes::{kind_of, span_of};
use crate::search::{Search, admits};
use crate::walking::next_open_until;
use flux_defs::{Claim, FreeView, List, Need, Steps};
use std::alloc::AllocError;
use std::sync::ledger::Ledger;
use text_forms::push;

/// The one need of the list, where it is alone and asks for held vertices within which nothing is asked.
pub(crate) fn held_alone(needs: &List<Need>) -> Option<&Need>
    ensures { MatchOption result ((need : Need) → needs.now ≡ need ∷ [] → IsPlainHold need → ⊥)
        (λ need. (needs.now ≡ need.now ∷ []) × IsPlainHold need.now) }
{
    if needs.len() != 1 {
        return None;
    }
    let need = needs.get(0)?;
    let Need::Vert {
        hold,
        needs: inner,
        ..
    } = need
    else {
        return None;
    };
    if *hold && inner.is_empty() {
        return Some(need);
    }
    None
}

/// Holds the vertex where it may be held: 1, or 0 where it may not. `entered` isn't closed.
#[inline(always)]
fn hold<F: FreeView, L: Ledger>(
    s: &Search<F>,
    vertex: u32,
    entered: Option<u32>,
    out: &mut Vec<Claim>,
    steps: &mut Steps<L>,
) -> Result<u64, AllocError>
    requires vertex { vertex < length (vertices_of s.now.graph.now) }
    requires open { IsOpenScope (vertices_of s.now.graph.now) (F.stands_for s.now.view.now) s.now.barred.now
        s.now.window entered }
    ensures few { IfOk result (λ held. held ≤ 1) }
    ensures each { IfOk result (λ held. length out.new.items ≡ length out.old.items + held) }
    ensures offers { IfOk result (λ held. Extends out.old.items out.new.items
        (λ claims. InEach (F.stands_for s.now.view.now)
        (λ present. let vs : List Vertex = vertices_of s.now.graph.now in
        let ok : Claim → Type 0 = open_to vs present s.now.barred.now s.now.window in
        (need : Need) (scope : Scope) (most : ℕ) → IsPlainHold need → IsOfNeed vs need vertex → IsIn vs scope vertex →
        1 ≤ most → Offers (CanServe vs ok scope need vertex) (LowestPiece vs ok need vertex) most held claims))) }
    ensures work { steps.new ≤ steps.old + 2 * F.cost s.now.view.now }
{
    if !admits(s, true, vertex, entered, steps) {
        return Ok(0);
    }
    push(out, Claim::Hold { vertex })?;
    Ok(1)
}

/// Holds the first vertices of the need that may be held in the scope, which isn't closed, at most so many: how many.
fn write_held<F: FreeView, L: Ledger>(
    s: &Search<F>,
    need: &Need,
    index: usize,
    most: u128,
    scope: Option<u32>,
    out: &mut Vec<Claim>,
    steps: &mut Steps<L>,
) -> Result<u128, AllocError>
    requires stands { StandsAt (needs_all s.now.needs.now) s.now.wanted.now index need.now }
    requires scope { IsScope (vertices_of s.now.graph.now) scope }
    requires open { IsOpenScope (vertices_of s.now.graph.now) (F.stands_for s.now.view.now) s.now.barred.now
        s.now.window scope }
    requires valid { IsValidNeed (vertices_of s.now.graph.now) need.now }
    requires held { IsPlainHold need.now }
    ensures within { IfOk result (λ reached. reached ≤ most) }
    ensures each { IfOk result (λ reached. length out.new.items ≡ length out.old.items + reached) }
    ensures written { IfOk result (λ reached. Extends out.old.items out.new.items
        (λ claims. InEach (F.stands_for s.now.view.now)
        (λ present. let vs : List Vertex = vertices_of s.now.graph.now in
        let ok : Claim → Type 0 = open_to vs present s.now.barred.now s.now.window in
        IsGreatest (SomeGroup vs ok (scope_of scope) need.now) most reached
        × LowestGroup vs ok (scope_of scope) need.now reached claims))) }
    ensures work { InEach (F.stands_for s.now.view.now) (λ present. (place from to : ℕ) →
        (let vs : List Vertex = vertices_of s.now.graph.now in
        let keeps : ℕ → ℕ → Type 0 = asked_totals s.now.wanted.now (F.keeps s.now.view.now) in
        let all : List Need = needs_all s.now.needs.now in
        IsPlaceOf all place need.now → IsClearScope vs present s.now.window keeps scope need.now →
        IsSpanOf vs scope from to →
        TakesEach (HasEachOpen vs present s.now.window keeps all) ((length all + 2) * F.cost s.now.view.now)
        steps.old steps.new place (place + length (all_of need.now)) from to)) }
{
    s.graph.is_valid();
    let Some(kind) = kind_of(s.graph, need) else {
        return Ok(0);
    };
    let span = span_of(s.graph, scope);
    let mut reached = 0;
    let mut at = span.from;
    while reached < most {
        let mut until = s.window.from;
        let Some(vertex) = next_open_until(s, need, index, kind, at, span.to, &mut until, steps)
        else {
            return Ok(reached);
        };
        let next = s.graph.past(vertex);
        let held = hold(s, vertex, scope, out, steps)?;
        reached += u128::from(held);
        at = next;
    }
    Ok(reached)
}

/// Lets the node serve as many copies of a spread of this need alone as it can, at most so many, and writes them, where
/// `entered` isn't closed.
pub(crate) fn offer_held<F: FreeView, L: Ledger>(
    s: &Search<F>,
    need: &Need,
    index: usize,
    node: u32,
    entered: Option<u32>,
    most: u64,
    out: &mut Vec<Claim>,
    steps: &mut Steps<L>,
) -> Result<u64, AllocError>
    requires stands { StandsAt (needs_all s.now.needs.now) s.now.wanted.now index need.now }
    requires node { IsNode (vertices_of s.now.graph.now) node }
    requires vertex { node < length (vertices_of s.now.graph.now) }
    requires open { IsOpenScope (vertices_of s.now.graph.now) (F.stands_for s.now.view.now) s.now.barred.now
        s.now.window entered }
    requires valid { IsValidNeed (vertices_of s.now.graph.now) need.now }
    requires held { IsPlainHold need.now }
    ensures within { IfOk result (λ copies. copies ≤ most) }
    ensures offers { IfOk result (λ copies. Extends out.old.items out.new.items
        (λ claims. InEach (F.stands_for s.now.view.now)
        (λ present. let vs : List Vertex = vertices_of s.now.graph.now in
        let ok : Claim → Type 0 = open_to vs present s.now.barred.now s.now.window in
        (scope : Scope) (count : ℕ) → IsIn vs scope node →
        Offers (CanServe vs ok scope (Spread count (need.now ∷ [])) node)
        (LowestPiece vs ok (Spread count (need.now ∷ [])) node) most copies claims))) }
    ensures work { InEach (F.stands_for s.now.view.now) (λ present. (place past : ℕ) →
        (let vs : List Vertex = vertices_of s.now.graph.now in
        let keeps : ℕ → ℕ → Type 0 = asked_totals s.now.wanted.now (F.keeps s.now.view.now) in
        let all : List Need = needs_all s.now.needs.now in
        IsPlaceOf all place need.now → IsClear vs present s.now.window keeps need.now node → IsPast vs node past →
        TakesEach (HasEachOpen vs present s.now.window keeps all) ((length all + 2) * F.cost s.now.view.now)
        (steps.old + 2 * F.cost s.now.view.now) steps.new place (place + length (all_of need.now)) (node + 1) past)) }
{
    s.graph.is_valid();
    if !admits(s, false, node, entered, steps) {
        return Ok(0);
    }
    let mark = out.len();
    push(out, Claim::Pass { vertex: node })?;
    let amount = need.amount();
    let asked = u128::from(most) * u128::from(amount);
    let reached = write_held(s, need, index, asked, Some(node), out, steps)?;
    let copies = whole_times(reached, amount, most);
    if copies == 0 {
        out.truncate(mark);
        return Ok(0);
    }
    let over = reached - u128::from(copies) * u128::from(amount);
    out.truncate(out.len() - over as usize);
    Ok(copies)
}
