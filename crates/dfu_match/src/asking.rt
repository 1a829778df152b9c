//! Asks how much vertices serve of which that isn't known any more, without writing a claim.
ghost use Rattle.std.specs.Prelude.{◌≡◌, ℕ, ◌+◌, ◌*◌, ◌<◌, ◌≤◌, ◌∷◌, ◌⊎◌, [], length, List, IfSome, IfNone, IsTrue};
ghost use Rattle.std.specs.Prelude.{None, Some, MatchOption, slice_get};
ghost use Rattle.std.specs.List.{AllByRecursion};
ghost use Rattle.flux_defs.specs.declared.vertices.Vertex.{Vertex};
ghost use Rattle.flux_defs.specs.declared.claims.Claim.{Claim};
ghost use Rattle.flux_defs.specs.declared.claims.Window.{Window};
ghost use Rattle.flux_defs.specs.declared.requests.Need.{Need};
ghost use Rattle.flux_defs.specs.Graph.{Everywhere, is_at_or_below};
ghost use Rattle.flux_defs.specs.Later.{ReachesOver};
ghost use Rattle.flux_defs.specs.Needs.{amount_of, HasNoSpread, IsOfNeed, IsSpread, IsValidNeed, AreValidNeeds};
ghost use Rattle.flux_defs.specs.Present.{InEach};
ghost use Rattle.prune_filters.specs.Shorts.{IsShortFor};
ghost use Rattle.resource_graph.specs.Tables.{IsPast};
ghost use Rattle.dfu_match.specs.Searches.{open_to};
ghost use Rattle.dfu_match.specs.Tables.{all_of, needs_all, StandsAt};
ghost use Rattle.dfu_match.specs.Pairs.{AsksWithin, HasEachOpen, IsClearWithin, IsClearBefore};
ghost use Rattle.dfu_match.specs.Pairs.{IsClearBetween, IsPlaceOf, TakesEach};
ghost use Rattle.dfu_match.specs.Pairs.{asked_totals};
ghost use Rattle.dfu_match.specs.Tops.{IsTopFrom, TellsShort, TellsClear};
ghost use Rattle.dfu_match.specs.Asked.{AreDead, IsAsked};
ghost use Rattle.match_laws.specs.Offers.{SomeFits};
ghost use Rattle.dfu_match.specs.Reaches.{FallsWithin, ServesAtMost};
ghost use Rattle.dfu_match.specs.Rows.{served_most, IsRowOf, IsSetAt, Knows};
ghost use Rattle.resource_graph.specs.NamedGraph.{vertices_of};

use crate::bounding::most_copies;
use crate::counting::{copies, serves};
use crate::knowing::{Known, Row};
use crate::refuting::refuted_known;
use crate::search::{Search, refuses_until};
use crate::spreads::{asks_once, is_spread};
use crate::topmost::whole_of;
use crate::walking::{index_after, index_within, top_over, top_within};
use flux_defs::{FreeView, Need, Steps};
use std::sync::ledger::Ledger;

/// The uppermost vertex above this one, from `low` on, that is short for the need, or the vertex itself; of a spread
/// it isn't asked, as its room tells more. It is short over all windows that reach over what is left of this one from
/// `until` on, which falls to such a moment.
fn top_above<F: FreeView, L: Ledger>(
    s: &Search<F>,
    need: &Need,
    index: usize,
    low: u32,
    vertex: u32,
    until: &mut u64,
    steps: &mut Steps<L>,
) -> Option<u32>
    requires stands { StandsAt (needs_all s.now.needs.now) s.now.wanted.now index need.now }
    requires vertex { vertex < length (vertices_of s.now.graph.now) }
    requires low { low ≤ vertex }
    ensures above { IsTopFrom (vertices_of s.now.graph.now) low vertex result }
    ensures short { TellsShort (vertices_of s.now.graph.now) (F.stands_for s.now.view.now)
        (asked_totals s.now.wanted.now (F.keeps s.now.view.now)) s.now.window until.new need.now result }
    ensures clear { TellsClear (vertices_of s.now.graph.now) (F.stands_for s.now.view.now)
        (asked_totals s.now.wanted.now (F.keeps s.now.view.now)) s.now.window need.now low vertex vertex result }
    ensures own { InEach (F.stands_for s.now.view.now) (λ present. (IsSpread need.now → ⊥) →
        AsksWithin need.now → IfNone result (IsShortFor (vertices_of s.now.graph.now) present s.now.window
        (asked_totals s.now.wanted.now (F.keeps s.now.view.now)) need.now vertex → ⊥)) }
    ensures falls { FallsWithin s.now.window until.old until.new }
    ensures work { InEach (F.stands_for s.now.view.now) (λ present. (place : ℕ) →
        (let vs : List Vertex = vertices_of s.now.graph.now in
        let keeps : ℕ → ℕ → Type 0 = asked_totals s.now.wanted.now (F.keeps s.now.view.now) in
        let all : List Need = needs_all s.now.needs.now in
        let taken : ℕ → Type 0 = TakesEach (HasEachOpen vs present s.now.window keeps all)
        (length (all_of need.now) * F.cost s.now.view.now) steps.old steps.new place (place + 1) low in
        IsPlaceOf all place need.now → IsClearBetween vs present s.now.window keeps need.now vertex 0 low →
        taken (vertex + 1) × (IsSpread need.now → taken vertex))) }
{
    if is_spread(need) {
        return top_over(s, need, index, low, vertex, until, steps);
    }
    top_within(s, need, index, low, vertex, until, steps)
}

/// A row of the vertex, of which is asked how much of the need it serves: of a spread by its totals alone.
fn ask<F: FreeView, L: Ledger>(
    s: &Search<F>,
    need: &Need,
    index: usize,
    vertex: u32,
    steps: &mut Steps<L>,
) -> Row
    requires stands { StandsAt (needs_all s.now.needs.now) s.now.wanted.now index need.now }
    requires vertex { vertex < length (vertices_of s.now.graph.now) }
    requires of_need { IsOfNeed (vertices_of s.now.graph.now) need.now vertex }
    requires valid { IsValidNeed (vertices_of s.now.graph.now) need.now }
    ensures row { IsRowOf (vertices_of s.now.graph.now) (F.stands_for s.now.view.now) s.now.barred.now
        s.now.window need.now result }
    ensures same { result.vertex ≡ vertex }
    ensures copies { IsSpread need.now →
        steps.new ≤ steps.old + (length (all_of need.now) + 1) * F.cost s.now.view.now }
    ensures work { InEach (F.stands_for s.now.view.now) (λ present. (place past : ℕ) →
        (let vs : List Vertex = vertices_of s.now.graph.now in
        let keeps : ℕ → ℕ → Type 0 = asked_totals s.now.wanted.now (F.keeps s.now.view.now) in
        let all : List Need = needs_all s.now.needs.now in
        (IsSpread need.now → ⊥) →
        IsPlaceOf all place need.now → IsClearWithin vs present s.now.window keeps need.now vertex →
        IsPast vs vertex past →
        TakesEach (HasEachOpen vs present s.now.window keeps all) ((length all + 2) * F.cost s.now.view.now)
        (steps.old + 2 * F.cost s.now.view.now) steps.new (place + 1) (place + length (all_of need.now))
        (vertex + 1) past)) }
{
    s.graph.is_valid();
    let whole = whole_of(need);
    let mut until = u64::MAX;
    match need {
        Need::Vert { hold, needs, .. } => {
            if refuses_until(s, *hold, vertex, &mut until, steps) {
                return Row {
                    vertex,
                    most: 0,
                    moment: until,
                };
            }
            let within = index_within(s, need, index);
            let most = copies(s, needs, within, Some(vertex), 1, steps);
            Row {
                vertex,
                most,
                moment: until_served(s, most, whole),
            }
        }
        Need::Pool { .. } => {
            let most = serves(s, need, index, vertex, None, u128::from(whole), steps);
            Row {
                vertex,
                most,
                moment: until_served(s, most, whole),
            }
        }
        Need::Spread { .. } => {
            match most_copies(s, need, index, vertex, &mut until, steps) {
                None => Row {
                    vertex,
                    most: whole,
                    moment: u64::MAX,
                },
                Some(most) => Row {
                    vertex,
                    most,
                    moment: until,
                },
            }
        }
    }
}

/// Until when a vertex that served so much over this window serves no more, as far as that is known: always where it
/// is all that is ever asked, and else over windows that begin no later than this one.
fn until_served<F: FreeView>(s: &Search<F>, most: u64, whole: u64) -> u64
    ensures { most < whole → result ≡ s.now.window.from }
{
    if most < whole {
        s.window.from
    } else {
        u64::MAX
    }
}

/// The vertices from `top` on and before `past` serve nothing over all windows that reach over what is left of this
/// one from `moment` on.
#[derive(Clone, Copy)]
struct Dead {
    top: u32,
    past: u32,
    moment: u64,
}

/// Asks anew of the row's vertex, which isn't before `low`, and puts what it finds at the row's place; where a vertex
/// above is short, `dead` tells which others serve nothing either. What it looked at lies before the position that it
/// tells.
fn ask_row<F: FreeView, L: Ledger>(
    s: &Search<F>,
    need: &Need,
    index: usize,
    own: usize,
    at: usize,
    low: u32,
    vertex: u32,
    dead: &mut Dead,
    known: &mut Known,
    steps: &mut Steps<L>,
) -> u32
    requires stands { StandsAt (needs_all s.now.needs.now) s.now.wanted.now index need.now }
    requires of_need { IsOfNeed (vertices_of s.now.graph.now) need.now vertex }
    requires low { low ≤ vertex }
    requires valid { IsValidNeed (vertices_of s.now.graph.now) need.now }
    requires of_own { slice_get s.now.needs.now own ≡ Some need.now }
    requires dead { AreDead (vertices_of s.now.graph.now) (F.stands_for s.now.view.now) s.now.barred.now
        s.now.window need.now dead.old }
    requires known { Knows (vertices_of s.now.graph.now) (F.stands_for s.now.view.now) s.now.barred.now
        s.now.needs.now s.now.window known.old }
    ensures dead { AreDead (vertices_of s.now.graph.now) (F.stands_for s.now.view.now) s.now.barred.now
        s.now.window need.now dead.new }
    ensures known { Knows (vertices_of s.now.graph.now) (F.stands_for s.now.view.now) s.now.barred.now
        s.now.needs.now s.now.window known.new }
    ensures own { known.new.own ≡ known.old.own }
    ensures end { known.new.end ≡ known.old.end }
    ensures place { IsSetAt at known.old.rows.items known.new.rows.items }
    ensures work { InEach (F.stands_for s.now.view.now) (λ present. (place : ℕ) →
        (let vs : List Vertex = vertices_of s.now.graph.now in
        let keeps : ℕ → ℕ → Type 0 = asked_totals s.now.wanted.now (F.keeps s.now.view.now) in
        let all : List Need = needs_all s.now.needs.now in
        IsPlaceOf all place need.now → IsClearBefore vs present s.now.window keeps need.now low (length vs) →
        IsAsked vs present s.now.window keeps all need.now place ((length all + 2) * F.cost s.now.view.now) steps.old
        steps.new low result)) }
{
    s.graph.is_valid();
    let mut moment = u64::MAX;
    match top_above(s, need, index, low, vertex, &mut moment, steps) {
        Some(top) => {
            let past = s.graph.past(top);
            *dead = Dead { top, past, moment };
            let row = Row {
                vertex,
                most: 0,
                moment,
            };
            known.put(own, at, row);
            past
        }
        None => {
            let row = ask(s, need, index, vertex, steps);
            known.put(own, at, row);
            s.graph.past(vertex)
        }
    }
}

/// Asks anew of the row's vertex where nothing was looked at from it on, as `ask_row` does; else it may be one of those
/// that serve nothing.
fn renew<F: FreeView, L: Ledger>(
    s: &Search<F>,
    need: &Need,
    index: usize,
    own: usize,
    at: usize,
    low: u32,
    vertex: u32,
    dead: &mut Dead,
    known: &mut Known,
    steps: &mut Steps<L>,
) -> u32
    requires stands { StandsAt (needs_all s.now.needs.now) s.now.wanted.now index need.now }
    requires of_need { IsOfNeed (vertices_of s.now.graph.now) need.now vertex }
    requires valid { IsValidNeed (vertices_of s.now.graph.now) need.now }
    requires of_own { slice_get s.now.needs.now own ≡ Some need.now }
    requires dead { AreDead (vertices_of s.now.graph.now) (F.stands_for s.now.view.now) s.now.barred.now
        s.now.window need.now dead.old }
    requires known { Knows (vertices_of s.now.graph.now) (F.stands_for s.now.view.now) s.now.barred.now
        s.now.needs.now s.now.window known.old }
    ensures dead { AreDead (vertices_of s.now.graph.now) (F.stands_for s.now.view.now) s.now.barred.now
        s.now.window need.now dead.new }
    ensures known { Knows (vertices_of s.now.graph.now) (F.stands_for s.now.view.now) s.now.barred.now
        s.now.needs.now s.now.window known.new }
    ensures own { known.new.own ≡ known.old.own }
    ensures end { known.new.end ≡ known.old.end }
    ensures place { IsSetAt at known.old.rows.items known.new.rows.items }
    ensures work { InEach (F.stands_for s.now.view.now) (λ present. (place : ℕ) →
        (let vs : List Vertex = vertices_of s.now.graph.now in
        let keeps : ℕ → ℕ → Type 0 = asked_totals s.now.wanted.now (F.keeps s.now.view.now) in
        let all : List Need = needs_all s.now.needs.now in
        IsPlaceOf all place need.now → IsClearBefore vs present s.now.window keeps need.now low (length vs) →
        low ≤ length vs →
        IsAsked vs present s.now.window keeps all need.now place ((length all + 2) * F.cost s.now.view.now) steps.old
        steps.new low result)) }
{
    if low <= vertex {
        return ask_row(s, need, index, own, at, low, vertex, dead, known, steps);
    }
    if dead.top <= vertex && vertex < dead.past {
        let row = Row {
            vertex,
            most: 0,
            moment: dead.moment,
        };
        known.put(own, at, row);
    }
    low
}

/// Asks anew of the rows that tell nothing more of this window, in their order, until what the rows leave is too
/// little: then it tells until when. None where they leave enough.
fn ask_rows<F: FreeView, L: Ledger>(
    s: &Search<F>,
    need: &Need,
    index: usize,
    own: usize,
    known: &mut Known,
    steps: &mut Steps<L>,
) -> Option<u64>
    requires stands { StandsAt (needs_all s.now.needs.now) s.now.wanted.now index need.now }
    requires valid { IsValidNeed (vertices_of s.now.graph.now) need.now }
    requires of_own { slice_get s.now.needs.now own ≡ Some need.now }
    requires is_own { known.old.own ≡ own }
    requires known { Knows (vertices_of s.now.graph.now) (F.stands_for s.now.view.now) s.now.barred.now
        s.now.needs.now s.now.window known.old }
    ensures less { IfSome result (λ until. (s.now.window.from ≤ until)
        × (served_most need.now until known.new.rows.items < amount_of need.now)) }
    ensures own { known.new.own ≡ known.old.own }
    ensures end { known.new.end ≡ known.old.end }
    ensures known { Knows (vertices_of s.now.graph.now) (F.stands_for s.now.view.now) s.now.barred.now
        s.now.needs.now s.now.window known.new }
    ensures work { InEach (F.stands_for s.now.view.now) (λ present. (place : ℕ) →
        (let vs : List Vertex = vertices_of s.now.graph.now in
        let keeps : ℕ → ℕ → Type 0 = asked_totals s.now.wanted.now (F.keeps s.now.view.now) in
        let all : List Need = needs_all s.now.needs.now in
        let taken : ℕ → Type 0 = (λ after. TakesEach (HasEachOpen vs present s.now.window keeps all)
        ((length all + 2) * F.cost s.now.view.now) steps.old steps.new place after 0 (length vs)) in
        IsPlaceOf all place need.now →
        taken (place + length (all_of need.now)) × (IsSpread need.now → taken (place + 1)))) }
{
    s.graph.is_valid();
    let from = s.window.from;
    let amount = need.amount();
    let mut left = known.left(need, from);
    let mut dead = Dead {
        top: 0,
        past: 0,
        moment: 0,
    };
    let mut low = 0;
    let mut start = 0;
    'each: while left.room >= amount {
        let Some((at, row)) = known.next_old(start, from) else {
            return None;
        };
        low = renew(
            s, need, index, own, at, low, row.vertex, &mut dead, known, steps,
        );
        let Some(now) = known.row_at(at) else {
            return None;
        };
        left = left.renewed(need, &now);
        start = at + 1;
    }
    Some(left.until)
}

/// Asks anew of the rows of what is known, which are of all vertices of its need. Where they leave too little it tells
/// until when: over all windows that reach over what is left of this one from that moment on no claims fit.
fn ask_known<F: FreeView, L: Ledger>(
    s: &Search<F>,
    known: &mut Known,
    steps: &mut Steps<L>,
) -> Option<u64>
    requires valid { AreValidNeeds (vertices_of s.now.graph.now) s.now.needs.now }
    requires known { Knows (vertices_of s.now.graph.now) (F.stands_for s.now.view.now) s.now.barred.now
        s.now.needs.now s.now.window known.old }
    requires all { known.old.end ≡ length (vertices_of s.now.graph.now) }
    ensures later { IfSome result (λ until. s.now.window.from ≤ until) }
    ensures none { InEach (F.stands_for s.now.view.now) (λ present. (w : Window) →
        IfSome result (λ until. ReachesOver s.now.window until w → SomeFits (vertices_of s.now.graph.now)
        (open_to (vertices_of s.now.graph.now) present s.now.barred.now w) Everywhere s.now.needs.now 1 → ⊥)) }
    ensures known { Knows (vertices_of s.now.graph.now) (F.stands_for s.now.view.now) s.now.barred.now
        s.now.needs.now s.now.window known.new }
    ensures work { InEach (F.stands_for s.now.view.now)
        (λ present. let vs : List Vertex = vertices_of s.now.graph.now in
        let keeps : ℕ → ℕ → Type 0 = asked_totals s.now.wanted.now (F.keeps s.now.view.now) in
        let all : List Need = needs_all s.now.needs.now in
        let taken : ℕ → Type 0 = (λ after. TakesEach (HasEachOpen vs present s.now.window keeps all)
        ((length all + 2) * F.cost s.now.view.now) steps.old steps.new 0 after 0 (length vs)) in
        taken (length all) × ((need : Need) → s.now.needs.now ≡ need ∷ [] → IsSpread need → taken 1)) }
{
    let mut at = 0;
    let mut own: usize = 0;
    for need in s.needs.items() {
        if known.own() == own {
            return ask_rows(s, need, at, own, known, steps);
        }
        at = index_after(s, need, at);
        own = own.saturating_add(1);
    }
    None
}

/// Until when what is known, or is asked anew, tells that no claims fit: over all windows that reach over what is left
/// of this one from that moment on. None where it doesn't tell so of this window. Where asking and then writing would
/// look too often within a spread, nothing is asked.
pub(crate) fn refuted_first<F: FreeView, L: Ledger>(
    s: &Search<F>,
    known: &mut Known,
    steps: &mut Steps<L>,
) -> Option<u64>
    requires valid { AreValidNeeds (vertices_of s.now.graph.now) s.now.needs.now }
    requires known { Knows (vertices_of s.now.graph.now) (F.stands_for s.now.view.now) s.now.barred.now
        s.now.needs.now s.now.window known.old }
    ensures known { Knows (vertices_of s.now.graph.now) (F.stands_for s.now.view.now) s.now.barred.now
        s.now.needs.now s.now.window known.new }
    ensures later { IfSome result (λ until. s.now.window.from ≤ until) }
    ensures none { InEach (F.stands_for s.now.view.now) (λ present. (w : Window) →
        IfSome result (λ until. ReachesOver s.now.window until w → SomeFits (vertices_of s.now.graph.now)
        (open_to (vertices_of s.now.graph.now) present s.now.barred.now w) Everywhere s.now.needs.now 1 → ⊥)) }
    ensures work { InEach (F.stands_for s.now.view.now)
        (λ present. let vs : List Vertex = vertices_of s.now.graph.now in
        let keeps : ℕ → ℕ → Type 0 = asked_totals s.now.wanted.now (F.keeps s.now.view.now) in
        let all : List Need = needs_all s.now.needs.now in
        let taken : ℕ → Type 0 = (λ after. TakesEach (HasEachOpen vs present s.now.window keeps all)
        ((length all + 2) * F.cost s.now.view.now) steps.old steps.new 0 after 0 (length vs)) in
        (steps.new ≤ steps.old) ⊎ ((AllByRecursion HasNoSpread s.now.needs.now × taken (length all))
        ⊎ ((need : Need) × (s.now.needs.now ≡ need ∷ []) × IsSpread need × taken 1))) }
{
    if known.reaches(s.graph.len()) && asks_once(s.needs) {
        return ask_known(s, known, steps);
    }
    refuted_known(s, known)
}
