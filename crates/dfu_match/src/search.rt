//! What a search looks at, and which claims are available to it.
ghost use Rattle.std.specs.Prelude.{◌≡◌, ◌≢◌, ◌+◌, ◌*◌, ◌^◌, ℕ, [], ◌<◌, ◌≤◌, ◌↔◌, IsTrue, false, length, List};
ghost use Rattle.std.specs.Prelude.{Some};
ghost use Rattle.std.specs.List.{list_any};
ghost use Rattle.flux_defs.specs.declared.claims.Claim.{Claim};
ghost use Rattle.flux_defs.specs.declared.claims.Window.{Window};
ghost use Rattle.std.specs.Option.{IsSomeAnd};
ghost use Rattle.flux_defs.specs.Graph.{is_at_or_below, parent_of};
ghost use Rattle.flux_defs.specs.Closed.{IsClosedIn, IsTouchedIn};
ghost use Rattle.flux_defs.specs.Free.{IsFreeIn};
ghost use Rattle.flux_defs.specs.Later.{ReachesOver};
ghost use Rattle.flux_defs.specs.Present.{InEach};
ghost use Rattle.dfu_match.specs.Reaches.{FallsWithin};
ghost use Rattle.dfu_match.specs.Searches.{meets, open_to, claim_on, IsOpenScope};
ghost use Rattle.std.specs.List.Sorted.{IsStrictlyIncreasing};
ghost use Rattle.dfu_match.specs.Bars.{AreNodesOf, BarsAll};
ghost use Rattle.dfu_match.specs.Tables.{needs_all, AreWantedBy};
ghost use Rattle.std.proofs.Props.{props};
ghost use Rattle.resource_graph.specs.NamedGraph.{vertices_of};

use crate::bars::least_from;
use crate::wanting::Wanted;
use flux_defs::{FreeView, List, Need, Steps, Window};
use resource_graph::Graph;
use std::sync::ledger::Ledger;

/// What a search looks at: the graph, a view over its vertices, the needs of the ask and a table of what each of them
/// demands, which may be absent, the nodes that the ask bars, whether these are all nodes, and a window.
#[derive(Drop)]
pub(crate) struct Search<'a, F: FreeView> {
    pub(crate) graph: &'a Graph,
    pub(crate) view: &'a F,
    pub(crate) needs: &'a List<Need>,
    pub(crate) wanted: &'a [Wanted],
    pub(crate) barred: &'a List<u32>,
    pub(crate) shut: bool,
    pub(crate) window: Window,
    ghost over: { F.graph view.now ≡ vertices_of graph.now },
    ghost tells: { AreWantedBy (vertices_of graph.now) (needs_all needs.now) wanted.now } by { Prim.hlevel props },
    ghost fits: { length wanted.now < 2 ^ 64 },
    ghost whole: { wanted.now ≢ [] → length wanted.now ≡ length (needs_all needs.now) },
    ghost shuts: { IsTrue shut → BarsAll (vertices_of graph.now) barred.now },
    ghost opens: { window.from < window.to },
    ghost rising: { IsStrictlyIncreasing barred.now },
    ghost nodes: { AreNodesOf (vertices_of graph.now) barred.now },
}

/// Whether a barred node is the vertex or above it: the vertex's own node is barred.
fn bars_over<F: FreeView>(s: &Search<F>, vertex: u32) -> bool
    requires { vertex < length (vertices_of s.now.graph.now) }
    ensures { result ≡ list_any (is_at_or_below (vertices_of s.now.graph.now) vertex) s.now.barred.now }
{
    if s.barred.is_empty() {
        return false;
    }
    s.graph.is_valid();
    match s.graph.node_of(vertex) {
        None => false,
        Some(node) => match least_from(s.barred.items(), node) {
            None => false,
            Some(least) => least == node,
        },
    }
}

/// Whether a barred node is the vertex or below it: the least one from the vertex on stands before what follows it.
fn bars_below<F: FreeView>(s: &Search<F>, vertex: u32) -> bool
    requires { vertex < length (vertices_of s.now.graph.now) }
    ensures { result ≡ list_any (λ u. is_at_or_below (vertices_of s.now.graph.now) u vertex) s.now.barred.now }
{
    if s.barred.is_empty() {
        return false;
    }
    s.graph.is_valid();
    match least_from(s.barred.items(), vertex) {
        None => false,
        Some(lower) => lower < s.graph.past(vertex),
    }
}

/// Whether the vertex is closed at some moment of the window.
#[inline(always)]
fn closed<F: FreeView, L: Ledger>(s: &Search<F>, vertex: u32, steps: &mut Steps<L>) -> bool
    requires { vertex < length (vertices_of s.now.graph.now) }
    ensures work { steps.new ≤ steps.old + F.cost s.now.view.now }
    ensures answer { InEach (F.stands_for s.now.view.now)
        (λ present. IsTrue result ↔ IsClosedIn (meets (vertices_of s.now.graph.now) present s.now.barred.now)
        s.now.window vertex) }
{
    bars_over(s, vertex) || s.view.closed_over(vertex, s.window, steps)
}

/// Whether the vertex is touched at some moment of the window.
#[inline(always)]
fn touched<F: FreeView, L: Ledger>(s: &Search<F>, vertex: u32, steps: &mut Steps<L>) -> bool
    requires { vertex < length (vertices_of s.now.graph.now) }
    ensures work { steps.new ≤ steps.old + F.cost s.now.view.now }
    ensures answer { InEach (F.stands_for s.now.view.now)
        (λ present. IsTrue result ↔ IsTouchedIn (meets (vertices_of s.now.graph.now) present s.now.barred.now)
        s.now.window vertex) }
{
    bars_below(s, vertex) || s.view.touched_over(vertex, s.window, steps)
}

/// The least that is free of the vertex at a moment of the window.
pub(crate) fn free<F: FreeView, L: Ledger>(s: &Search<F>, vertex: u32, steps: &mut Steps<L>) -> u64
    requires { vertex < length (vertices_of s.now.graph.now) }
    ensures work { steps.new ≤ steps.old + F.cost s.now.view.now }
    ensures answer { InEach (F.stands_for s.now.view.now)
        (λ present. IsFreeIn (meets (vertices_of s.now.graph.now) present s.now.barred.now) s.now.window vertex
        result) }
{
    if bars_over(s, vertex) {
        return 0;
    }
    s.view.free_over(vertex, s.window, steps)
}

/// Whether the vertex may be held, or passed. A vertex that is held is touched too, so one may be held where the vertex
/// above it isn't closed and it isn't touched: its own claims are looked at once. `entered` isn't closed, so it isn't
/// looked at where it is the one above.
#[inline(always)]
pub(crate) fn admits<F: FreeView, L: Ledger>(
    s: &Search<F>,
    hold: bool,
    vertex: u32,
    entered: Option<u32>,
    steps: &mut Steps<L>,
) -> bool
    requires vertex { vertex < length (vertices_of s.now.graph.now) }
    requires open { IsOpenScope (vertices_of s.now.graph.now) (F.stands_for s.now.view.now) s.now.barred.now
        s.now.window entered }
    ensures work { steps.new ≤ steps.old + 2 * F.cost s.now.view.now }
    ensures answer { InEach (F.stands_for s.now.view.now)
        (λ present. IsTrue result ↔ open_to (vertices_of s.now.graph.now) present s.now.barred.now s.now.window
        (claim_on hold vertex)) }
{
    if !hold {
        return !closed(s, vertex, steps);
    }
    s.graph.is_valid();
    if touched(s, vertex, steps) {
        return false;
    }
    !closed_above(s, vertex, entered, steps)
}

/// Whether the vertex above this one, if there is one, is closed at some moment of the window. `entered` isn't.
#[inline(always)]
fn closed_above<F: FreeView, L: Ledger>(
    s: &Search<F>,
    vertex: u32,
    entered: Option<u32>,
    steps: &mut Steps<L>,
) -> bool
    requires vertex { vertex < length (vertices_of s.now.graph.now) }
    requires open { IsOpenScope (vertices_of s.now.graph.now) (F.stands_for s.now.view.now) s.now.barred.now
        s.now.window entered }
    ensures work { steps.new ≤ steps.old + F.cost s.now.view.now }
    ensures answer { InEach (F.stands_for s.now.view.now)
        (λ present. IsTrue result ↔ IsSomeAnd (parent_of (vertices_of s.now.graph.now) vertex)
        (IsClosedIn (meets (vertices_of s.now.graph.now) present s.now.barred.now) s.now.window)) }
{
    s.graph.is_valid();
    match above(s.graph, vertex) {
        Some(upper) => {
            if is_one(entered, upper) {
                return false;
            }
            closed(s, upper, steps)
        }
        None => false,
    }
}

/// Whether it is this vertex.
#[inline(always)]
fn is_one(one: Option<u32>, vertex: u32) -> bool
    ensures { IsTrue result → one ≡ Some vertex }
{
    match one {
        None => false,
        Some(same) => same == vertex,
    }
}

/// The vertex above this one, if there is one.
#[inline(always)]
fn above(graph: &Graph, vertex: u32) -> Option<u32>
    ensures { result ≡ parent_of (vertices_of graph.now) vertex }
{
    match graph.vertices().get(vertex as usize) {
        Some(found) => return found.parent,
        None => return None,
    }
}

/// Whether it is known that the vertex is closed over all windows that reach over what is left of this one from
/// `until` on, which falls to such a moment. Where that isn't known it isn't closed over this one.
fn closed_until<F: FreeView, L: Ledger>(
    s: &Search<F>,
    vertex: u32,
    until: &mut u64,
    steps: &mut Steps<L>,
) -> bool
    requires { vertex < length (vertices_of s.now.graph.now) }
    ensures closed { IsTrue result → InEach (F.stands_for s.now.view.now) (λ present. (w : Window) →
        ReachesOver s.now.window until.new w →
        IsClosedIn (meets (vertices_of s.now.graph.now) present s.now.barred.now) w vertex) }
    ensures open { result ≡ false →
        InEach (F.stands_for s.now.view.now)
        (λ present. IsClosedIn (meets (vertices_of s.now.graph.now) present s.now.barred.now) s.now.window vertex → ⊥) }
    ensures falls { FallsWithin s.now.window until.old until.new }
    ensures work { steps.new ≤ steps.old + F.cost s.now.view.now }
{
    if bars_over(s, vertex) {
        return true;
    }
    match s.view.closed_until(vertex, s.window, steps) {
        None => false,
        Some(moment) => {
            *until = moment.min(*until);
            true
        }
    }
}

/// The same of whether it is touched.
fn touched_until<F: FreeView, L: Ledger>(
    s: &Search<F>,
    vertex: u32,
    until: &mut u64,
    steps: &mut Steps<L>,
) -> bool
    requires { vertex < length (vertices_of s.now.graph.now) }
    ensures touched { IsTrue result → InEach (F.stands_for s.now.view.now) (λ present. (w : Window) →
        ReachesOver s.now.window until.new w →
        IsTouchedIn (meets (vertices_of s.now.graph.now) present s.now.barred.now) w vertex) }
    ensures untouched { result ≡ false →
        InEach (F.stands_for s.now.view.now)
        (λ present. IsTouchedIn (meets (vertices_of s.now.graph.now) present s.now.barred.now) s.now.window vertex →
        ⊥) }
    ensures falls { FallsWithin s.now.window until.old until.new }
    ensures work { steps.new ≤ steps.old + F.cost s.now.view.now }
{
    if bars_below(s, vertex) {
        return true;
    }
    match s.view.touched_until(vertex, s.window, steps) {
        None => false,
        Some(moment) => {
            *until = moment.min(*until);
            true
        }
    }
}

/// Whether it is known that the vertex may not be held, or passed, over all windows that reach over what is left of
/// this one from `until` on, which falls to such a moment. Where that isn't known it isn't closed over this one.
pub(crate) fn refuses_until<F: FreeView, L: Ledger>(
    s: &Search<F>,
    hold: bool,
    vertex: u32,
    until: &mut u64,
    steps: &mut Steps<L>,
) -> bool
    requires { vertex < length (vertices_of s.now.graph.now) }
    ensures refuses { IsTrue result → InEach (F.stands_for s.now.view.now) (λ present. (w : Window) →
        ReachesOver s.now.window until.new w →
        open_to (vertices_of s.now.graph.now) present s.now.barred.now w (claim_on hold vertex) → ⊥) }
    ensures open { result ≡ false → IsOpenScope (vertices_of s.now.graph.now) (F.stands_for s.now.view.now)
        s.now.barred.now s.now.window (Some vertex) }
    ensures falls { FallsWithin s.now.window until.old until.new }
    ensures work { steps.new ≤ steps.old + 2 * F.cost s.now.view.now }
{
    if !hold {
        return closed_until(s, vertex, until, steps);
    }
    if touched_until(s, vertex, until, steps) {
        return true;
    }
    s.graph.is_valid();
    match above(s.graph, vertex) {
        None => false,
        Some(upper) => closed_until(s, upper, until, steps),
    }
}
