//! What the accounts say of a vertex over a window.
ghost use Rattle.std.specs.Prelude.{◌≡◌, ℕ, ◌+◌, ◌*◌, ◌<◌, ◌≤◌, ◌↔◌, IsTrue, List, length, Option, Some, slice_get};
ghost use Rattle.std.specs.Prelude.{IfSome, MatchOption, MatchBool};
ghost use Rattle.flux_defs.specs.declared.vertices.Vertex.{Vertex};
ghost use Rattle.flux_defs.specs.declared.claims.Job.{Job};
ghost use Rattle.flux_defs.specs.Digits.{dig};
ghost use Rattle.flux_defs.specs.Graph.{chain, is_pool, parent_of};
ghost use Rattle.flux_defs.specs.Jobs.{some_live_claim, IsPoint, IsNextPoint, SomeMoment};
ghost use Rattle.flux_defs.specs.Closed.{no_bars, is_closed, is_touched, IsClosedOver, IsTouchedOver};
ghost use Rattle.flux_defs.specs.Free.{IsFreeOver, IsTotalOver, IsTooLittleAt};
ghost use Rattle.flux_defs.specs.Present.{up_with};
ghost use Rattle.planner_points.specs.Spans.{free_at, IsLeastFree, HasRoom, IsLastBelow};
ghost use Rattle.book_laws.specs.Amounts.{is_hold, holds_along};
ghost use Rattle.book_laws.specs.Grouped.{grouped};
ghost use Rattle.prune_filters.specs.Amples.{IsNextAmpleOrNone};
ghost use Rattle.vertex_planners.specs.Lists.{items_of};
ghost use Rattle.vertex_planners.specs.Work.{CostWithin};
ghost use Rattle.vertex_accounts.specs.declared.quantities.Quantity.{Quantity};
ghost use Rattle.vertex_accounts.specs.Quantities.{amount_in, total_in};
ghost use Rattle.vertex_accounts.specs.Costs.{look_most, rest_most, closed_most};
ghost use Rattle.vertex_accounts.specs.Moments.{IsMomentOrNone, IsThroughOrNone};
ghost use Rattle.flux_defs.specs.Views.{MayBeAsked};
ghost use Rattle.resource_graph.specs.NamedGraph.{vertices_of};

use crate::books::Accounts;
use crate::counted::{CLAIMS, HOLDS, TAKES};
use flux_defs::{Steps, Window};
use planner_points::Planner;
use resource_graph::Graph;
use std::sync::ledger::Ledger;
use vertex_planners::{Item, parent_in};

impl<P: Planner + Drop> Accounts<P> {
    ghost use Rattle.vertex_accounts.specs.Books.{AreAccountsOf, AreAccounts, HasPlace, HasTotals, counted_of};
    ghost use Rattle.vertex_accounts.specs.Books.{IsWider, IsNarrower};

    /// A moment of the window at which a job holds one of the first so many vertices on the way up from this one;
    /// `None` exactly where there is none. It looks at none that is wider than those that jobs hold.
    fn held_up<L: Ledger>(
        &self,
        graph: &Graph,
        most: usize,
        from: Option<u32>,
        window: Window,
        steps: &mut Steps<L>,
    ) -> Option<u64>
        requires graph { AreAccountsOf (vertices_of graph.now) self.now }
        requires window { window.from < window.to }
        requires inside { IfSome from (λ v. v < length (vertices_of graph.now)) }
        ensures answer { (jobs : List Job) →
            AreAccounts P.total_of P.stands_for (vertices_of graph.now) jobs self.now →
            IsMomentOrNone window (λ m. IsTrue (some_live_claim jobs m
            (holds_along (chain (vertices_of graph.now) most from)))) result }
        ensures counted { steps.old ≤ steps.new }
        ensures work { (most_looks : ℕ) → CostWithin P.look_cost most_looks (items_of self.now.planners) →
            steps.new ≤ steps.old + length (chain (vertices_of graph.now) most from)
            * look_most (length (vertices_of graph.now)) most_looks }
    {
        graph.is_valid();
        let Some(vertex) = from else {
            return None;
        };
        if most == 0 {
            return None;
        }
        if self.is_wider(graph, vertex) {
            return None;
        }
        match self.held_over(graph, vertex, window, steps) {
            Some(moment) => Some(moment),
            None => {
                let upper = upper(graph, vertex);
                self.held_up(graph, most - 1, upper, window, steps)
            }
        }
    }

    /// Whether the vertex is wider than those that jobs hold, as is each above it then.
    #[inline(always)]
    fn is_wider(&self, graph: &Graph, vertex: u32) -> bool
        requires { vertex < length (vertices_of graph.now) }
        ensures { IsTrue result → IsWider (vertices_of graph.now) self.now.widest vertex }
    {
        graph.past(vertex) - vertex > self.widest
    }

    /// Whether the vertex is narrower than those at which claims of jobs count.
    #[inline(always)]
    fn is_narrower(&self, graph: &Graph, vertex: u32) -> bool
        requires { vertex < length (vertices_of graph.now) }
        ensures { IsTrue result → IsNarrower (vertices_of graph.now) self.now.narrowest vertex }
    {
        graph.past(vertex) - vertex < self.narrowest
    }

    /// The last moment of the window at which a job holds the vertex itself; `None` exactly where there is none.
    #[inline(always)]
    fn held_over<L: Ledger>(
        &self,
        graph: &Graph,
        vertex: u32,
        window: Window,
        steps: &mut Steps<L>,
    ) -> Option<u64>
        requires graph { AreAccountsOf (vertices_of graph.now) self.now }
        requires asked { MayBeAsked (vertices_of graph.now) vertex window }
        ensures answer { (jobs : List Job) →
            AreAccounts P.total_of P.stands_for (vertices_of graph.now) jobs self.now →
            IsMomentOrNone window (λ m. IsTrue (some_live_claim jobs m (is_hold vertex))) result }
        ensures counted { steps.old ≤ steps.new }
        ensures work { (most_looks : ℕ) → CostWithin P.look_cost most_looks (items_of self.now.planners) →
            steps.new ≤ steps.old + look_most (length (vertices_of graph.now)) most_looks }
    {
        let item = self.planners.at(vertex, steps);
        self.below_in(&item, vertex, HOLDS, window, u64::MAX, steps)
    }

    /// The least that jobs leave over the window of a quantity at the vertex, whose item this is.
    fn least_in<L: Ledger>(
        &self,
        item: &Item<P>,
        vertex: u32,
        place: usize,
        window: Window,
        steps: &mut Steps<L>,
    ) -> u64
        requires item { slice_get (items_of self.now.planners) vertex ≡ Some item.now }
        requires place { place < length item.now }
        requires window { window.from < window.to }
        ensures least { (vertices : List Vertex) (jobs : List Job) (q : Quantity) →
            AreAccounts P.total_of P.stands_for vertices jobs self.now →
            slice_get (counted_of self.now).quantities place ≡ Some q →
            IsLeastFree (total_in vertices q vertex) (grouped (amount_in vertices q vertex) jobs) window result }
        ensures counted { steps.old ≤ steps.new }
        ensures work { (most_looks : ℕ) →
            CostWithin P.look_cost most_looks (items_of self.now.planners) → steps.new ≤ steps.old + most_looks }
    {
        item.least(place, window, steps)
    }

    /// Whether jobs leave so much of a quantity at the vertex, whose item this is, at each moment of the window.
    #[inline(always)]
    fn room_in<L: Ledger>(
        &self,
        item: &Item<P>,
        vertex: u32,
        place: usize,
        window: Window,
        amount: u64,
        steps: &mut Steps<L>,
    ) -> bool
        requires item { slice_get (items_of self.now.planners) vertex ≡ Some item.now }
        requires place { place < length item.now }
        requires window { window.from < window.to }
        ensures room { (vertices : List Vertex) (jobs : List Job) (q : Quantity) →
            AreAccounts P.total_of P.stands_for vertices jobs self.now →
            slice_get (counted_of self.now).quantities place ≡ Some q →
            MatchBool result
            (HasRoom (total_in vertices q vertex) (grouped (amount_in vertices q vertex) jobs) window amount)
            (SomeMoment window
            (λ m. free_at (total_in vertices q vertex) (grouped (amount_in vertices q vertex) jobs) m < amount)) }
        ensures counted { steps.old ≤ steps.new }
        ensures work { (most_looks : ℕ) →
            CostWithin P.look_cost most_looks (items_of self.now.planners) → steps.new ≤ steps.old + most_looks }
    {
        item.has_room(place, window, amount, steps)
    }

    /// The last moment of the window at which jobs leave less than the amount of a quantity at the vertex, whose item
    /// this is; `None` exactly where there is none.
    #[inline(always)]
    fn below_in<L: Ledger>(
        &self,
        item: &Item<P>,
        vertex: u32,
        place: usize,
        window: Window,
        amount: u64,
        steps: &mut Steps<L>,
    ) -> Option<u64>
        requires item { slice_get (items_of self.now.planners) vertex ≡ Some item.now }
        requires place { place < length item.now }
        requires window { window.from < window.to }
        ensures last { (vertices : List Vertex) (jobs : List Job) (q : Quantity) →
            AreAccounts P.total_of P.stands_for vertices jobs self.now →
            slice_get (counted_of self.now).quantities place ≡ Some q →
            MatchOption result
            (HasRoom (total_in vertices q vertex) (grouped (amount_in vertices q vertex) jobs) window amount)
            (IsLastBelow (total_in vertices q vertex) (grouped (amount_in vertices q vertex) jobs) window amount) }
        ensures counted { steps.old ≤ steps.new }
        ensures work { (most_looks : ℕ) →
            CostWithin P.look_cost most_looks (items_of self.now.planners) → steps.new ≤ steps.old + most_looks }
    {
        item.last_below(place, window, amount, steps)
    }

    /// A moment of the window at which a job holds the vertex, whose item this is, or one above it; `None` exactly
    /// where there is none. It looks at no vertex that is wider than those that jobs hold.
    #[inline(always)]
    fn closed_moment<L: Ledger>(
        &self,
        graph: &Graph,
        item: &Item<P>,
        vertex: u32,
        window: Window,
        steps: &mut Steps<L>,
    ) -> Option<u64>
        requires graph { AreAccountsOf (vertices_of graph.now) self.now }
        requires item { slice_get (items_of self.now.planners) vertex ≡ Some item.now }
        requires asked { MayBeAsked (vertices_of graph.now) vertex window }
        ensures answer { (jobs : List Job) →
            AreAccounts P.total_of P.stands_for (vertices_of graph.now) jobs self.now →
            IsMomentOrNone window
            (λ m. IsTrue (is_closed (no_bars (vertices_of graph.now) (up_with jobs)) m vertex)) result }
        ensures counted { steps.old ≤ steps.new }
        ensures work { (most_looks : ℕ) → CostWithin P.look_cost most_looks (items_of self.now.planners) →
            steps.new ≤ steps.old + rest_most (length (vertices_of graph.now)) most_looks }
    {
        graph.is_valid();
        if self.is_wider(graph, vertex) {
            return None;
        }
        match self.below_in(item, vertex, HOLDS, window, u64::MAX, steps) {
            Some(moment) => Some(moment),
            None => {
                let most = (graph.len() as usize).saturating_sub(1);
                let upper = upper(graph, vertex);
                self.held_up(graph, most, upper, window, steps)
            }
        }
    }

    /// Whether a job holds the vertex or one above it at some moment of the window.
    #[inline(always)]
    pub fn closed_over<L: Ledger>(
        &self,
        graph: &Graph,
        vertex: u32,
        window: Window,
        steps: &mut Steps<L>,
    ) -> bool
        requires graph { AreAccountsOf (vertices_of graph.now) self.now }
        requires asked { MayBeAsked (vertices_of graph.now) vertex window }
        ensures answer { (jobs : List Job) →
            AreAccounts P.total_of P.stands_for (vertices_of graph.now) jobs self.now →
            (IsTrue result ↔ IsClosedOver (vertices_of graph.now) (up_with jobs) window vertex) }
        ensures some_work { steps.old < steps.new }
        ensures work { (most_looks : ℕ) → CostWithin P.look_cost most_looks (items_of self.now.planners) →
            steps.new ≤ steps.old + closed_most (length (vertices_of graph.now)) most_looks }
    {
        let item = self.planners.at(vertex, steps);
        self.closed_moment(graph, &item, vertex, window, steps)
            .is_some()
    }

    /// Whether a job has a claim on the vertex or below it at some moment of the window. Claims aren't looked for at a
    /// vertex that is narrower than those at which they count.
    #[inline(always)]
    pub fn touched_over<L: Ledger>(
        &self,
        graph: &Graph,
        vertex: u32,
        window: Window,
        steps: &mut Steps<L>,
    ) -> bool
        requires graph { AreAccountsOf (vertices_of graph.now) self.now }
        requires asked { MayBeAsked (vertices_of graph.now) vertex window }
        ensures answer { (jobs : List Job) →
            AreAccounts P.total_of P.stands_for (vertices_of graph.now) jobs self.now →
            (IsTrue result ↔ IsTouchedOver (vertices_of graph.now) (up_with jobs) window vertex) }
        ensures some_work { steps.old < steps.new }
        ensures work { (most_looks : ℕ) → CostWithin P.look_cost most_looks (items_of self.now.planners) →
            steps.new ≤ steps.old + (look_most (length (vertices_of graph.now)) most_looks + most_looks) }
    {
        graph.is_valid();
        let item = self.planners.at(vertex, steps);
        if !self.room_in(&item, vertex, HOLDS, window, u64::MAX, steps) {
            return true;
        }
        if self.is_narrower(graph, vertex) {
            return false;
        }
        !self.room_in(&item, vertex, CLAIMS, window, u64::MAX, steps)
    }

    /// Through which moment, after this one of the window, jobs leave less than the amount of a quantity at the vertex,
    /// whose item this is. It isn't looked for where this moment isn't the window's last one.
    fn through<L: Ledger>(
        &self,
        item: &Item<P>,
        vertex: u32,
        place: usize,
        moment: u64,
        window: Window,
        amount: u64,
        steps: &mut Steps<L>,
    ) -> u64
        requires item { slice_get (items_of self.now.planners) vertex ≡ Some item.now }
        requires place { place < length item.now }
        requires window { window.from < window.to }
        ensures later { moment ≤ result }
        ensures less { (vertices : List Vertex) (jobs : List Job) (q : Quantity) →
            AreAccounts P.total_of P.stands_for vertices jobs self.now →
            slice_get (counted_of self.now).quantities place ≡ Some q → (m : ℕ) → moment < m → m ≤ result →
            free_at (total_in vertices q vertex) (grouped (amount_in vertices q vertex) jobs) m < amount }
        ensures counted { steps.old ≤ steps.new }
        ensures work { (most_looks : ℕ) →
            CostWithin P.look_cost most_looks (items_of self.now.planners) → steps.new ≤ steps.old + most_looks }
    {
        if moment < window.to - 1 {
            return moment;
        }
        match item.first_free(place, moment, amount, steps) {
            None => u64::MAX,
            Some(first) => moment.max(first.saturating_sub(1)),
        }
    }

    /// A moment through which, from one of the window on, a job holds the vertex, whose item this is, or one above it;
    /// `None` exactly where none does at a moment of the window.
    fn closed_through<L: Ledger>(
        &self,
        graph: &Graph,
        item: &Item<P>,
        vertex: u32,
        window: Window,
        steps: &mut Steps<L>,
    ) -> Option<u64>
        requires graph { AreAccountsOf (vertices_of graph.now) self.now }
        requires item { slice_get (items_of self.now.planners) vertex ≡ Some item.now }
        requires asked { MayBeAsked (vertices_of graph.now) vertex window }
        ensures answer { (jobs : List Job) →
            AreAccounts P.total_of P.stands_for (vertices_of graph.now) jobs self.now →
            IsThroughOrNone window
            (λ m. IsTrue (is_closed (no_bars (vertices_of graph.now) (up_with jobs)) m vertex)) result }
        ensures counted { steps.old ≤ steps.new }
        ensures work { (most_looks : ℕ) → CostWithin P.look_cost most_looks (items_of self.now.planners) →
            steps.new ≤ steps.old + (rest_most (length (vertices_of graph.now)) most_looks + most_looks) }
    {
        match self.closed_moment(graph, item, vertex, window, steps) {
            None => None,
            Some(moment) => Some(self.through(
                item,
                vertex,
                HOLDS,
                moment,
                window,
                u64::MAX,
                steps,
            )),
        }
    }

    /// A moment through which, from one of the window on, a job holds the vertex or one above it; `None` exactly where
    /// none does at a moment of the window.
    pub fn closed_until<L: Ledger>(
        &self,
        graph: &Graph,
        vertex: u32,
        window: Window,
        steps: &mut Steps<L>,
    ) -> Option<u64>
        requires graph { AreAccountsOf (vertices_of graph.now) self.now }
        requires asked { MayBeAsked (vertices_of graph.now) vertex window }
        ensures answer { (jobs : List Job) →
            AreAccounts P.total_of P.stands_for (vertices_of graph.now) jobs self.now →
            IsThroughOrNone window
            (λ m. IsTrue (is_closed (no_bars (vertices_of graph.now) (up_with jobs)) m vertex)) result }
        ensures some_work { steps.old < steps.new }
        ensures work { (most_looks : ℕ) → CostWithin P.look_cost most_looks (items_of self.now.planners) →
            steps.new ≤ steps.old + (closed_most (length (vertices_of graph.now)) most_looks + most_looks) }
    {
        graph.is_valid();
        let item = self.planners.at(vertex, steps);
        self.closed_through(graph, &item, vertex, window, steps)
    }

    /// A moment through which, from one of the window on, a job has a claim on the vertex or below it; `None` exactly
    /// where none has at a moment of the window. Claims aren't looked for at a vertex that is narrower than those at
    /// which they count.
    pub fn touched_until<L: Ledger>(
        &self,
        graph: &Graph,
        vertex: u32,
        window: Window,
        steps: &mut Steps<L>,
    ) -> Option<u64>
        requires graph { AreAccountsOf (vertices_of graph.now) self.now }
        requires asked { MayBeAsked (vertices_of graph.now) vertex window }
        ensures answer { (jobs : List Job) →
            AreAccounts P.total_of P.stands_for (vertices_of graph.now) jobs self.now →
            IsThroughOrNone window
            (λ m. IsTrue (is_touched (no_bars (vertices_of graph.now) (up_with jobs)) m vertex)) result }
        ensures some_work { steps.old < steps.new }
        ensures work { (most_looks : ℕ) → CostWithin P.look_cost most_looks (items_of self.now.planners) →
            steps.new ≤ steps.old + (closed_most (length (vertices_of graph.now)) most_looks + most_looks) }
    {
        graph.is_valid();
        let item = self.planners.at(vertex, steps);
        if let Some(moment) = self.below_in(&item, vertex, HOLDS, window, u64::MAX, steps) {
            return Some(self.through(&item, vertex, HOLDS, moment, window, u64::MAX, steps));
        }
        if self.is_narrower(graph, vertex) {
            return None;
        }
        match self.below_in(&item, vertex, CLAIMS, window, u64::MAX, steps) {
            None => None,
            Some(moment) => Some(self.through(
                &item,
                vertex,
                CLAIMS,
                moment,
                window,
                u64::MAX,
                steps,
            )),
        }
    }

    /// The least that is free of the vertex at a moment of the window.
    pub fn free_over<L: Ledger>(
        &self,
        graph: &Graph,
        vertex: u32,
        window: Window,
        steps: &mut Steps<L>,
    ) -> u64
        requires graph { AreAccountsOf (vertices_of graph.now) self.now }
        requires asked { MayBeAsked (vertices_of graph.now) vertex window }
        ensures answer { (jobs : List Job) →
            AreAccounts P.total_of P.stands_for (vertices_of graph.now) jobs self.now →
            IsFreeOver (vertices_of graph.now) (up_with jobs) window vertex result }
        ensures some_work { steps.old < steps.new }
        ensures work { (most_looks : ℕ) → CostWithin P.look_cost most_looks (items_of self.now.planners) →
            steps.new ≤ steps.old + (closed_most (length (vertices_of graph.now)) most_looks + most_looks) }
    {
        let item = self.planners.at(vertex, steps);
        let closed = self
            .closed_moment(graph, &item, vertex, window, steps)
            .is_some();
        if closed {
            return 0;
        }
        if is_pool_vertex(graph, vertex) {
            return self.least_in(&item, vertex, TAKES, window, steps);
        }
        1
    }

    /// A moment of the window at which the total at the vertex of the type whose units have this place is below the
    /// amount; `None` exactly where there is none. Where jobs leave less of it there at some moment, it doesn't look
    /// whether the vertex is closed.
    pub fn total_below<L: Ledger>(
        &self,
        graph: &Graph,
        vertex: u32,
        place: usize,
        amount: u64,
        window: Window,
        steps: &mut Steps<L>,
    ) -> Option<u64>
        requires graph { AreAccountsOf (vertices_of graph.now) self.now }
        requires place { (kind : ℕ) × HasPlace self.now kind place }
        requires asked { MayBeAsked (vertices_of graph.now) vertex window }
        ensures answer { (kind : ℕ) (jobs : List Job) → HasPlace self.now kind place →
            AreAccounts P.total_of P.stands_for (vertices_of graph.now) jobs self.now →
            IsMomentOrNone window (IsTooLittleAt (vertices_of graph.now) (up_with jobs) vertex kind amount) result }
        ensures some_work { steps.old < steps.new }
        ensures work { (most_looks : ℕ) → CostWithin P.look_cost most_looks (items_of self.now.planners) →
            steps.new ≤ steps.old + (closed_most (length (vertices_of graph.now)) most_looks + most_looks) }
    {
        graph.is_valid();
        let item = self.planners.at(vertex, steps);
        if let Some(moment) = self.below_in(&item, vertex, place, window, amount, steps) {
            return Some(moment);
        }
        if amount == 0 {
            return None;
        }
        self.closed_moment(graph, &item, vertex, window, steps)
    }

    /// A moment through which, from one of the window on, the total at the vertex of the type whose units have this
    /// place is below the amount; `None` exactly where it is so at no moment of the window.
    pub fn total_until<L: Ledger>(
        &self,
        graph: &Graph,
        vertex: u32,
        place: usize,
        amount: u64,
        window: Window,
        steps: &mut Steps<L>,
    ) -> Option<u64>
        requires graph { AreAccountsOf (vertices_of graph.now) self.now }
        requires place { (kind : ℕ) × HasPlace self.now kind place }
        requires asked { MayBeAsked (vertices_of graph.now) vertex window }
        ensures answer { (kind : ℕ) (jobs : List Job) → HasPlace self.now kind place →
            AreAccounts P.total_of P.stands_for (vertices_of graph.now) jobs self.now →
            IsThroughOrNone window (IsTooLittleAt (vertices_of graph.now) (up_with jobs) vertex kind amount)
            result }
        ensures some_work { steps.old < steps.new }
        ensures work { (most_looks : ℕ) → CostWithin P.look_cost most_looks (items_of self.now.planners) →
            steps.new ≤ steps.old + (closed_most (length (vertices_of graph.now)) most_looks + 2 * most_looks) }
    {
        graph.is_valid();
        let item = self.planners.at(vertex, steps);
        if let Some(moment) = self.below_in(&item, vertex, place, window, amount, steps) {
            return Some(self.through(&item, vertex, place, moment, window, amount, steps));
        }
        if amount == 0 {
            return None;
        }
        self.closed_through(graph, &item, vertex, window, steps)
    }

    /// The least total at the vertex, over a moment of the window, of the type whose units have this place. Where jobs
    /// leave nothing of it there, it doesn't look whether the vertex is closed.
    pub fn total_over<L: Ledger>(
        &self,
        graph: &Graph,
        vertex: u32,
        place: usize,
        window: Window,
        steps: &mut Steps<L>,
    ) -> u64
        requires graph { AreAccountsOf (vertices_of graph.now) self.now }
        requires place { (kind : ℕ) × HasPlace self.now kind place }
        requires asked { MayBeAsked (vertices_of graph.now) vertex window }
        ensures answer { (kind : ℕ) (jobs : List Job) → HasPlace self.now kind place →
            AreAccounts P.total_of P.stands_for (vertices_of graph.now) jobs self.now →
            IsTotalOver (vertices_of graph.now) (up_with jobs) window kind vertex result }
        ensures some_work { steps.old < steps.new }
        ensures work { (most_looks : ℕ) → CostWithin P.look_cost most_looks (items_of self.now.planners) →
            steps.new ≤ steps.old + (closed_most (length (vertices_of graph.now)) most_looks + most_looks) }
    {
        graph.is_valid();
        let item = self.planners.at(vertex, steps);
        let least = self.least_in(&item, vertex, place, window, steps);
        if least == 0 {
            return 0;
        }
        let closed = self
            .closed_moment(graph, &item, vertex, window, steps)
            .is_some();
        if closed {
            return 0;
        }
        least
    }

    /// The least start or end of a job that is later than the moment; `None` exactly where there is none.
    pub fn next_point<L: Ledger>(&self, after: u64, steps: &mut Steps<L>) -> Option<u64>
        ensures later { ((vertices : List Vertex) × (jobs : List Job)
            × AreAccounts P.total_of P.stands_for vertices jobs self.now) → IfSome result (λ p. after < p) }
        ensures answer { (vertices : List Vertex) (jobs : List Job) →
            AreAccounts P.total_of P.stands_for vertices jobs self.now →
            MatchOption result ((p : ℕ) → after < p → IsPoint jobs p → ⊥) (IsNextPoint jobs after) }
        ensures some_work { steps.old < steps.new }
        ensures work { steps.new ≤ steps.old + (P.look_cost self.now.times + 1) }
    {
        steps.tick();
        self.times.next_point(after, steps)
    }

    /// The least start or end of a job that is later than the moment and at which the root's total of the type is that
    /// much; `None` exactly where there is none. Totals of the type have to be kept.
    pub fn next_ample<L: Ledger>(
        &self,
        graph: &Graph,
        after: u64,
        kind: u32,
        amount: u64,
        steps: &mut Steps<L>,
    ) -> Option<u64>
        requires graph { AreAccountsOf (vertices_of graph.now) self.now }
        requires kept { HasTotals self.now kind }
        ensures answer { (jobs : List Job) →
            AreAccounts P.total_of P.stands_for (vertices_of graph.now) jobs self.now →
            IsNextAmpleOrNone (vertices_of graph.now) (up_with jobs) kind amount after result }
        ensures some_work { steps.old < steps.new }
        ensures work { (most_looks : ℕ) → CostWithin P.look_cost most_looks (items_of self.now.planners) →
            steps.new ≤ steps.old
            + (P.look_cost self.now.times + 1 + look_most (length (vertices_of graph.now)) most_looks) }
    {
        let Some(next) = self.next_point(after, steps) else {
            return None;
        };
        let Some(place) = self.counted().place_of(kind) else {
            unreachable!()
        };
        graph.is_valid();
        let item = self.planners.at(0, steps);
        item.first_free(place, next, amount, steps)
    }
}

/// Whether the vertex is of a pool type.
fn is_pool_vertex(graph: &Graph, vertex: u32) -> bool
    ensures { result ≡ is_pool (vertices_of graph.now) vertex }
{
    match graph.vertices().get(vertex as usize) {
        Some(found) => return graph.is_pool(found.kind),
        None => return false,
    }
}

/// The vertex that contains this one, if one does.
pub(crate) fn upper(graph: &Graph, vertex: u32) -> Option<u32>
    ensures value { result ≡ parent_of (vertices_of graph.now) vertex }
    ensures inside { IfSome result (λ v. v < length (vertices_of graph.now)) }
{
    parent_in(graph.vertices().items(), vertex)
}
