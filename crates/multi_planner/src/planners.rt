//! Planners side by side.
ghost use Rattle.std.specs.Prelude.{◌≡◌, ℕ, ◌+◌, ◌<◌, ◌≤◌, List, [], ◌∷◌, ◌++◌, length, sum_by, Some, slice_get, IfOk};
ghost use Rattle.planner_points.specs.declared.spans.Span.{Span};
ghost use Rattle.planner_points.specs.Spans.{span_of, HasRoom, HasSpan, IsLeastFree};
ghost use Rattle.multi_planner.specs.Places.{AtEach, AtEachThree};

use flux_defs::{List, Steps, Window};
use planner_points::Planner;
use std::alloc::{AllocError, Global};
use std::marker::Model;
use std::sync::ledger::Ledger;

/// One planner for each place of a list whose length never changes. Contracts see the list of the planners. It never
/// changes; each call that adds or removes spans gives a new one.
#[derive(Drop)]
pub struct MultiPlanner<P: Planner + Drop> {
    planners: List<P>,
}

impl<P: Planner + Drop> Model for MultiPlanner<P> {
    ghost use Rattle.std.specs.Prelude.{List};

    ghost Value = { List P };

    ghost view = { λ multi. multi.planners };
}

impl<P: Planner + Drop> MultiPlanner<P> {
    /// A planner without spans for each of these totals.
    pub fn empty(
        alloc: Global,
        totals: &List<u64>,
        horizon: u64,
    ) -> Result<MultiPlanner<P>, AllocError>
        ensures places { IfOk result (λ multi. length multi ≡ length totals.now) }
        ensures total { IfOk result (λ multi. AtEach (λ total planner. P.total_of planner ≡ total) totals.now multi) }
        ensures horizon { IfOk result (λ multi.
            AtEach (λ total planner. P.horizon_of planner ≡ horizon) totals.now multi) }
        ensures spans { IfOk result (λ multi. AtEach (λ total planner. P.stands_for planner []) totals.now multi) }
    {
        let mut planners = List::new(alloc);
        for place in 0..totals.len() {
            let Some(total) = totals.get(place) else {
                unreachable!()
            };
            let planner = P::empty(alloc, *total, horizon)?;
            match planners.push(planner) {
                Ok(()) => {}
                Err((_, refused)) => return Err(refused),
            }
        }
        Ok(MultiPlanner { planners })
    }

    /// How many places it has.
    pub fn len(&self) -> usize
        ensures { result ≡ length self.now }
    {
        self.planners.len()
    }

    /// Another one of the same spans.
    pub fn share(&self, alloc: Global) -> Result<MultiPlanner<P>, AllocError>
        ensures places { IfOk result (λ multi. length multi ≡ length self.now) }
        ensures total { IfOk result (λ multi.
            AtEach (λ old planner. P.total_of planner ≡ P.total_of old) self.now multi) }
        ensures horizon { IfOk result (λ multi.
            AtEach (λ old planner. P.horizon_of planner ≡ P.horizon_of old) self.now multi) }
        ensures spans { IfOk result (λ multi. AtEach (λ old planner. (spans : List Span) → P.stands_for old spans →
            P.stands_for planner spans) self.now multi) }
    {
        let mut planners = List::new(alloc);
        for place in 0..self.planners.len() {
            let Some(old) = self.planners.get(place) else {
                unreachable!()
            };
            let planner = old.share()?;
            match planners.push(planner) {
                Ok(()) => {}
                Err((_, refused)) => return Err(refused),
            }
        }
        Ok(MultiPlanner { planners })
    }

    /// Each planner with a span more over that window, of its place's amount. So much has to be free there.
    pub fn with_spans<L: Ledger>(
        &self,
        alloc: Global,
        window: Window,
        amounts: &List<u64>,
        steps: &mut Steps<L>,
    ) -> Result<MultiPlanner<P>, AllocError>
        requires places { length amounts.now ≡ length self.now }
        requires window { window.from < window.to }
        requires room { AtEach (λ planner amount. (spans : List Span) → P.stands_for planner spans →
            HasRoom (P.total_of planner) spans window amount) self.now amounts.now }
        ensures places { IfOk result (λ multi. length multi ≡ length self.now) }
        ensures total { IfOk result (λ multi.
            AtEach (λ old planner. P.total_of planner ≡ P.total_of old) self.now multi) }
        ensures horizon { IfOk result (λ multi.
            AtEach (λ old planner. P.horizon_of planner ≡ P.horizon_of old) self.now multi) }
        ensures spans { IfOk result (λ multi. AtEachThree (λ old amount planner. (before after : List Span) →
            P.stands_for old (before ++ after) → P.stands_for planner (before ++ span_of window amount ∷ after))
            self.now amounts.now multi) }
        ensures work { steps.new ≤ steps.old + sum_by P.change_cost self.now }
    {
        let mut planners = List::new(alloc);
        for place in 0..self.planners.len() {
            let Some(old) = self.planners.get(place) else {
                unreachable!()
            };
            let Some(amount) = amounts.get(place) else {
                unreachable!()
            };
            let planner = old.with_span(alloc, window, *amount, steps)?;
            match planners.push(planner) {
                Ok(()) => {}
                Err((_, refused)) => return Err(refused),
            }
        }
        Ok(MultiPlanner { planners })
    }

    /// Each planner with such a span less, of its place's amount. It has to stand for a list that has one.
    pub fn without_spans<L: Ledger>(
        &self,
        alloc: Global,
        window: Window,
        amounts: &List<u64>,
        steps: &mut Steps<L>,
    ) -> Result<MultiPlanner<P>, AllocError>
        requires places { length amounts.now ≡ length self.now }
        requires window { window.from < window.to }
        requires span { AtEach (λ planner amount. HasSpan (P.stands_for planner) (span_of window amount))
            self.now amounts.now }
        ensures places { IfOk result (λ multi. length multi ≡ length self.now) }
        ensures total { IfOk result (λ multi.
            AtEach (λ old planner. P.total_of planner ≡ P.total_of old) self.now multi) }
        ensures horizon { IfOk result (λ multi.
            AtEach (λ old planner. P.horizon_of planner ≡ P.horizon_of old) self.now multi) }
        ensures spans { IfOk result (λ multi. AtEachThree (λ old amount planner. (before after : List Span) →
            P.stands_for old (before ++ span_of window amount ∷ after) → P.stands_for planner (before ++ after))
            self.now amounts.now multi) }
        ensures work { steps.new ≤ steps.old + sum_by P.change_cost self.now }
    {
        let mut planners = List::new(alloc);
        for place in 0..self.planners.len() {
            let Some(old) = self.planners.get(place) else {
                unreachable!()
            };
            let Some(amount) = amounts.get(place) else {
                unreachable!()
            };
            let planner = old.without_span(alloc, window, *amount, steps)?;
            match planners.push(planner) {
                Ok(()) => {}
                Err((_, refused)) => return Err(refused),
            }
        }
        Ok(MultiPlanner { planners })
    }

    /// The least that is free of the place's total at a second of the window. It takes no memory.
    pub fn min_of<L: Ledger>(&self, place: usize, window: Window, steps: &mut Steps<L>) -> u64
        requires place { place < length self.now }
        requires window { window.from < window.to }
        ensures least { (planner : P) → slice_get self.now place ≡ Some planner → (spans : List Span) →
            P.stands_for planner spans → IsLeastFree (P.total_of planner) spans window result }
        ensures work { (planner : P) → slice_get self.now place ≡ Some planner →
            steps.new ≤ steps.old + P.look_cost planner }
    {
        let Some(planner) = self.planners.get(place) else {
            unreachable!()
        };
        planner.min_over(window, steps)
    }
}
