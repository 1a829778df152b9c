//! Whether a kept total is below a demand.
ghost use Rattle.std.specs.Prelude.{◌+◌, ◌*◌, ◌<◌, ◌≤◌, length, MatchOption, IfSome};
ghost use Rattle.flux_defs.specs.Present.{InEach};
ghost use Rattle.flux_defs.specs.Views.{MayBeAsked, TellsUntil};
ghost use Rattle.prune_filters.specs.Shorts.{IsShortOf, IsShortInAt};

use flux_defs::{FreeView, List, Steps, Window};
use std::sync::ledger::Ledger;

/// So much of one kind is wanted, at a vertex and below it.
#[derive(Clone, Copy, Debug, Drop, PartialEq, Eq)]
pub struct Demand {
    pub kind: u32,
    pub amount: u64,
}

/// A demand, and a moment, in seconds, at which a total is below its amount.
#[derive(Clone, Copy, Debug, Drop, PartialEq, Eq)]
pub struct Shortage {
    pub demand: Demand,
    pub moment: u64,
}

/// Until when the vertex is short of some of the demands, in seconds: over each window that begins then or before and
/// ends no sooner than this one the view's total is below what one of them wants. `None` exactly where it is short of
/// none over this window. It takes no memory.
pub fn short_until<F: FreeView, L: Ledger>(
    view: &F,
    vertex: u32,
    demands: &List<Demand>,
    window: Window,
    steps: &mut Steps<L>,
) -> Option<u64>
    requires asked { MayBeAsked (F.graph view.now) vertex window }
    ensures answer { TellsUntil (F.stands_for view.now)
        (λ present w. IsShortOf (F.graph view.now) present w (F.keeps view.now) demands.now vertex) window result }
    ensures within { IfSome result (λ m. window.from ≤ m) }
    ensures work { steps.new ≤ steps.old + length demands.now * F.cost view.now }
{
    for demand in demands.items() {
        if let Some(moment) = view.total_until(vertex, demand.kind, demand.amount, window, steps) {
            return Some(moment);
        }
    }
    None
}

/// The first of the demands of which the vertex is short at a moment of the window, and such a moment; `None` exactly
/// where it is short of none. It takes no memory.
pub fn first_short<F: FreeView, L: Ledger>(
    view: &F,
    vertex: u32,
    demands: &List<Demand>,
    window: Window,
    steps: &mut Steps<L>,
) -> Option<Shortage>
    requires asked { MayBeAsked (F.graph view.now) vertex window }
    ensures answer { InEach (F.stands_for view.now) (λ present. MatchOption result
        (IsShortOf (F.graph view.now) present window (F.keeps view.now) demands.now vertex → ⊥)
        (IsShortInAt (F.graph view.now) present (F.keeps view.now) demands.now vertex)) }
    ensures within { IfSome result (λ s. (window.from ≤ s.moment) × (s.moment < window.to)) }
    ensures kept { IfSome result (λ s. F.keeps view.now vertex s.demand.kind) }
    ensures work { steps.new ≤ steps.old + length demands.now * F.cost view.now }
{
    for demand in demands.items() {
        if let Some(moment) = view.total_below(vertex, demand.kind, demand.amount, window, steps) {
            return Some(Shortage {
                demand: *demand,
                moment,
            });
        }
    }
    None
}
