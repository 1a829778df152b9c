//! The planners of one vertex.
ghost use Rattle.std.specs.Prelude.{◌≡◌, ℕ, ◌+◌, ◌*◌, ◌<◌, ◌≤◌, List, length, slice_get, Some, MatchOption};
ghost use Rattle.std.specs.Prelude.{MatchBool};
ghost use Rattle.flux_defs.specs.Jobs.{SomeMoment};
ghost use Rattle.planner_points.specs.declared.spans.Span.{Span};
ghost use Rattle.planner_points.specs.Spans.{free_at, HasRoom, IsLeastFree, IsFirstFree, IsLastBelow};
ghost use Rattle.vertex_planners.specs.Groups.{sixteenths};

use flux_defs::{List, Steps, Window};
use planner_points::Planner;
use std::marker::Model;
use std::sync::ledger::Ledger;

/// The planners of one vertex, by place, to look at. Contracts see the list of them.
#[derive(Drop)]
pub struct Item<'a, P: Planner + Drop> {
    pub(crate) planners: &'a List<P>,
    pub(crate) slot: usize,
}

impl<'a, P: Planner + Drop> Model for Item<'a, P> {
    ghost use Rattle.std.specs.Prelude.{List};

    ghost Value = { List P };

    ghost use Rattle.vertex_planners.specs.Groups.{sixteenths};

    ghost view = { λ item. sixteenths item.planners.now item.slot };
}

/// Where the planner of a place stands among those of sixteen vertices, for the vertex at that place among them.
#[inline(always)]
pub(crate) fn index_of<P>(planners: &List<P>, slot: usize, place: usize) -> usize
    requires { place < length (sixteenths planners.now slot) }
    ensures index { result ≡ slot + 16 * place }
    ensures within { result < length planners.now }
{
    let _len = planners.len();
    slot + 16 * place
}

impl<'a, P: Planner + Drop> Item<'a, P> {
    /// The planner of the place.
    #[inline(always)]
    fn planner(&self, place: usize) -> &P
        requires { place < length self.now }
        ensures { slice_get self.now place ≡ Some result.now }
    {
        let planners = self.planners;
        let index = index_of(planners, self.slot, place);
        match planners.get(index) {
            Some(planner) => return planner,
            None => unreachable!(),
        }
    }

    /// The least that is free at the place over the window. It takes no memory.
    pub fn least<L: Ledger>(&self, place: usize, window: Window, steps: &mut Steps<L>) -> u64
        requires place { place < length self.now }
        requires window { window.from < window.to }
        ensures least { (p : P) → slice_get self.now place ≡ Some p → (spans : List Span) → P.stands_for p spans →
            IsLeastFree (P.total_of p) spans window result }
        ensures counted { steps.old ≤ steps.new }
        ensures work { (p : P) → slice_get self.now place ≡ Some p → steps.new ≤ steps.old + P.look_cost p }
    {
        self.planner(place).min_over(window, steps)
    }

    /// Whether so much is free at the place at each second of the window. It takes no memory.
    #[inline(always)]
    pub fn has_room<L: Ledger>(
        &self,
        place: usize,
        window: Window,
        quantity: u64,
        steps: &mut Steps<L>,
    ) -> bool
        requires place { place < length self.now }
        requires window { window.from < window.to }
        ensures answer { (p : P) → slice_get self.now place ≡ Some p → (spans : List Span) → P.stands_for p spans →
            MatchBool result (HasRoom (P.total_of p) spans window quantity)
            (SomeMoment window (λ m. free_at (P.total_of p) spans m < quantity)) }
        ensures counted { steps.old ≤ steps.new }
        ensures work { (p : P) → slice_get self.now place ≡ Some p → steps.new ≤ steps.old + P.look_cost p }
    {
        self.planner(place).has_room(window, quantity, steps)
    }

    /// The last second of the window at which less than so much is free at the place; `None` exactly where at each so
    /// much is. It takes no memory.
    pub fn last_below<L: Ledger>(
        &self,
        place: usize,
        window: Window,
        quantity: u64,
        steps: &mut Steps<L>,
    ) -> Option<u64>
        requires place { place < length self.now }
        requires window { window.from < window.to }
        ensures last { (p : P) → slice_get self.now place ≡ Some p → (spans : List Span) → P.stands_for p spans →
            MatchOption result (HasRoom (P.total_of p) spans window quantity)
            (IsLastBelow (P.total_of p) spans window quantity) }
        ensures counted { steps.old ≤ steps.new }
        ensures work { (p : P) → slice_get self.now place ≡ Some p → steps.new ≤ steps.old + P.look_cost p }
    {
        self.planner(place).last_below(window, quantity, steps)
    }

    /// The least second from `from` on at which so much is free at the place; `None` exactly where at each of them less
    /// is. It takes no memory.
    pub fn first_free<L: Ledger>(
        &self,
        place: usize,
        from: u64,
        quantity: u64,
        steps: &mut Steps<L>,
    ) -> Option<u64>
        requires place { place < length self.now }
        ensures first { (p : P) → slice_get self.now place ≡ Some p → (spans : List Span) → P.stands_for p spans →
            MatchOption result ((t : ℕ) →
            from ≤ t → free_at (P.total_of p) spans t < quantity) (IsFirstFree (P.total_of p) spans from quantity) }
        ensures counted { steps.old ≤ steps.new }
        ensures work { (p : P) → slice_get self.now place ≡ Some p → steps.new ≤ steps.old + P.look_cost p }
    {
        self.planner(place).first_free(from, quantity, steps)
    }
}
