//! What every planner answers.
ghost use Rattle.std.specs.Prelude.{◌≡◌, ℕ, ◌+◌, ◌<◌, ◌≤◌, List, [], ◌∷◌, ◌++◌, ◌↔◌, IfOk, OnOk};
ghost use Rattle.std.specs.Prelude.{MatchBool, MatchOption};
ghost use Rattle.flux_defs.specs.Jobs.{SomeMoment};
ghost use Rattle.planner_points.specs.declared.spans.Span.{Span};
ghost use Rattle.planner_points.specs.Spans.{free_at, span_of, HasRoom, HasSpan, IsLeastFree, IsEnd, IsNextEnd};
ghost use Rattle.planner_points.specs.Spans.{MayStart, IsFirstStart, IsFirstFree, IsLastBelow};

use flux_defs::{Steps, Window};
use std::alloc::{AllocError, Global};
use std::sync::ledger::Ledger;

/// What spans leave free of a total over time. Each answer holds for every list of spans that the planner stands for.
/// Windows begin before they end; times are whole seconds. Where a change finds no memory, nothing is known of the
/// planner any more.
pub trait Planner: Sized {
    /// What there is where no span takes anything.
    ghost total_of: { Self → ℕ };

    /// The second up to which a start may reach.
    ghost horizon_of: { Self → ℕ };

    /// The planner stands for these spans. It need not keep them.
    ghost stands_for: { Self → List Span → Type 0 };

    /// How many steps `min_over`, `has_room`, `last_below`, `first_free` and `next_point` take at most.
    ghost look_cost: { Self → ℕ };

    /// How many steps a span more or less takes at most.
    ghost change_cost: { Self → ℕ };

    /// How many steps `settle` takes at most.
    ghost settle_cost: { Self → ℕ };

    /// The planner without spans.
    fn empty(alloc: Global, total: u64, horizon: u64) -> Result<Self, AllocError>
        ensures total { IfOk result (λ planner. total_of planner ≡ total) }
        ensures horizon { IfOk result (λ planner. horizon_of planner ≡ horizon) }
        ensures spans { IfOk result (λ planner. stands_for planner []) };

    /// The same planner once more, which costs no copy of its spans.
    fn share(&self) -> Result<Self, AllocError>
        ensures same { IfOk result (λ planner. planner ≡ self.now) }
        ensures total { IfOk result (λ planner. total_of planner ≡ total_of self.now) }
        ensures horizon { IfOk result (λ planner. horizon_of planner ≡ horizon_of self.now) }
        ensures spans { IfOk result (λ planner. (spans : List Span) → stands_for self.now spans →
            stands_for planner spans) };

    /// Makes the planner ready for questions from that second on: what is past stands apart, and calls that ask no
    /// earlier second pass over it. Each second is right.
    fn settle<L: Ledger>(
        &mut self,
        alloc: Global,
        moment: u64,
        steps: &mut Steps<L>,
    ) -> Result<(), AllocError>
        ensures total { OnOk result (total_of self.new ≡ total_of self.old) }
        ensures horizon { OnOk result (horizon_of self.new ≡ horizon_of self.old) }
        ensures spans { OnOk result ((spans : List Span) → (stands_for self.new spans ↔ stands_for self.old spans)) }
        ensures look { OnOk result (look_cost self.new ≡ look_cost self.old) }
        ensures change { OnOk result (change_cost self.new ≡ change_cost self.old) }
        ensures work { steps.new ≤ steps.old + settle_cost self.old };

    /// Adds one span. So much has to be free over its window. What no other planner shares is written in place.
    fn add_span<L: Ledger>(
        &mut self,
        alloc: Global,
        window: Window,
        quantity: u64,
        steps: &mut Steps<L>,
    ) -> Result<(), AllocError>
        requires window { window.from < window.to }
        requires room { (spans : List Span) → stands_for self.old spans →
            HasRoom (total_of self.old) spans window quantity }
        ensures total { OnOk result (total_of self.new ≡ total_of self.old) }
        ensures horizon { OnOk result (horizon_of self.new ≡ horizon_of self.old) }
        ensures spans { OnOk result ((before after : List Span) → stands_for self.old (before ++ after) →
            stands_for self.new (before ++ span_of window quantity ∷ after)) }
        ensures work { steps.new ≤ steps.old + change_cost self.old };

    /// Removes one such span. The planner has to stand for a list that has one. What no other planner shares is written
    /// in place.
    fn remove_span<L: Ledger>(
        &mut self,
        alloc: Global,
        window: Window,
        quantity: u64,
        steps: &mut Steps<L>,
    ) -> Result<(), AllocError>
        requires window { window.from < window.to }
        requires span { HasSpan (stands_for self.old) (span_of window quantity) }
        ensures total { OnOk result (total_of self.new ≡ total_of self.old) }
        ensures horizon { OnOk result (horizon_of self.new ≡ horizon_of self.old) }
        ensures spans { OnOk result ((before after : List Span) →
            stands_for self.old (before ++ span_of window quantity ∷ after) → stands_for self.new (before ++ after)) }
        ensures work { steps.new ≤ steps.old + change_cost self.old };

    /// The planner with one span more, beside this one. So much has to be free over its window.
    fn with_span<L: Ledger>(
        &self,
        alloc: Global,
        window: Window,
        quantity: u64,
        steps: &mut Steps<L>,
    ) -> Result<Self, AllocError>
        requires window { window.from < window.to }
        requires room { (spans : List Span) → stands_for self.now spans →
            HasRoom (total_of self.now) spans window quantity }
        ensures total { IfOk result (λ planner. total_of planner ≡ total_of self.now) }
        ensures horizon { IfOk result (λ planner. horizon_of planner ≡ horizon_of self.now) }
        ensures spans { IfOk result (λ planner. (before after : List Span) → stands_for self.now (before ++ after) →
            stands_for planner (before ++ span_of window quantity ∷ after)) }
        ensures work { steps.new ≤ steps.old + change_cost self.now };

    /// The planner with one such span less, beside this one. It has to stand for a list that has one.
    fn without_span<L: Ledger>(
        &self,
        alloc: Global,
        window: Window,
        quantity: u64,
        steps: &mut Steps<L>,
    ) -> Result<Self, AllocError>
        requires window { window.from < window.to }
        requires span { HasSpan (stands_for self.now) (span_of window quantity) }
        ensures total { IfOk result (λ planner. total_of planner ≡ total_of self.now) }
        ensures horizon { IfOk result (λ planner. horizon_of planner ≡ horizon_of self.now) }
        ensures spans { IfOk result (λ planner. (before after : List Span) →
            stands_for self.now (before ++ span_of window quantity ∷ after) → stands_for planner (before ++ after)) }
        ensures work { steps.new ≤ steps.old + change_cost self.now };

    /// The least that is free at a second of the window. It takes no memory.
    fn min_over<L: Ledger>(&self, window: Window, steps: &mut Steps<L>) -> u64
        requires { window.from < window.to }
        ensures least { (spans : List Span) → stands_for self.now spans →
            IsLeastFree (total_of self.now) spans window result }
        ensures work { steps.new ≤ steps.old + look_cost self.now }
        ensures counted { steps.old ≤ steps.new };

    /// Whether so much is free at each second of the window. It takes no memory.
    fn has_room<L: Ledger>(&self, window: Window, quantity: u64, steps: &mut Steps<L>) -> bool
        requires { window.from < window.to }
        ensures answer { (spans : List Span) → stands_for self.now spans →
            MatchBool result (HasRoom (total_of self.now) spans window quantity)
            (SomeMoment window (λ m. free_at (total_of self.now) spans m < quantity)) }
        ensures work { steps.new ≤ steps.old + look_cost self.now }
        ensures counted { steps.old ≤ steps.new };

    /// The last second of the window at which less than so much is free; `None` exactly where at each so much is. It
    /// takes no memory.
    fn last_below<L: Ledger>(
        &self,
        window: Window,
        quantity: u64,
        steps: &mut Steps<L>,
    ) -> Option<u64>
        requires { window.from < window.to }
        ensures last { (spans : List Span) → stands_for self.now spans →
            MatchOption result (HasRoom (total_of self.now) spans window quantity)
            (IsLastBelow (total_of self.now) spans window quantity) }
        ensures work { steps.new ≤ steps.old + look_cost self.now }
        ensures counted { steps.old ≤ steps.new };

    /// The least second not before `from` at which so much is free for `duration` seconds, all before the horizon;
    /// `None` exactly where there is none. It takes no memory.
    fn first_at_least<L: Ledger>(
        &self,
        from: u64,
        duration: u64,
        quantity: u64,
        steps: &mut Steps<L>,
    ) -> Option<u64>
        requires { 1 ≤ duration }
        ensures first { (spans : List Span) → stands_for self.now spans →
            MatchOption result
            ((t : ℕ) → from ≤ t → MayStart (total_of self.now) (horizon_of self.now) spans duration quantity t → ⊥)
            (IsFirstStart (total_of self.now) (horizon_of self.now) spans from duration quantity) };

    /// The least second from `from` on at which so much is free; `None` exactly where at each of them less is. It takes
    /// no memory.
    fn first_free<L: Ledger>(&self, from: u64, quantity: u64, steps: &mut Steps<L>) -> Option<u64>
        ensures first { (spans : List Span) → stands_for self.now spans →
            MatchOption result
            ((t : ℕ) → from ≤ t → free_at (total_of self.now) spans t < quantity)
            (IsFirstFree (total_of self.now) spans from quantity) }
        ensures work { steps.new ≤ steps.old + look_cost self.now }
        ensures counted { steps.old ≤ steps.new };

    /// The least start or end of a span after that second; `None` exactly where there is none. It takes no memory.
    fn next_point<L: Ledger>(&self, after: u64, steps: &mut Steps<L>) -> Option<u64>
        ensures next { (spans : List Span) → stands_for self.now spans →
            MatchOption result ((t : ℕ) → after < t → IsEnd spans t → ⊥) (IsNextEnd spans after) }
        ensures work { steps.new ≤ steps.old + look_cost self.now }
        ensures counted { steps.old ≤ steps.new };

    /// What is free at a second is the same for all lists that a planner stands for.
    ghost same_free: { (planner : Self) (some others : List Span) → stands_for planner some →
        stands_for planner others → (m : ℕ) → free_at (total_of planner) some m ≡ free_at (total_of planner) others m };
}
