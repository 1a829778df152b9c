//! The planner.
ghost use Rattle.std.specs.Prelude.{◌≡◌, ℕ, ◌+◌, ◌*◌, ◌<◌, ◌≤◌, List, [], ◌∷◌, ◌++◌, length, IfOk, OnOk, MatchOption};
ghost use Rattle.std.specs.Prelude.{MatchBool};
ghost use Rattle.flux_defs.specs.Jobs.{SomeMoment};
ghost use Rattle.flux_defs.specs.Digits.{dig};
ghost use Rattle.planner_points.specs.declared.spans.Span.{Span};
ghost use Rattle.planner_points.specs.Spans.{span_of, HasRoom, HasSpan, IsLeastFree, IsEnd, IsNextEnd, MayStart};
ghost use Rattle.planner_points.specs.Spans.{IsFirstStart, IsFirstFree, IsLastBelow, free_at};
ghost use Rattle.planner_min_tree.specs.Plans.{StandsFor};

use crate::marking::{Change, Mark};
use crate::near::Near;
use crate::points::Point;
use crate::timeline::Timeline;
use arrayvec::ArrayVec;
use flux_defs::{Steps, Window};
use node_store::Share;
use planner_points::Planner;
use std::alloc::{AllocError, Global};
use std::marker::Model;
use std::sync::ledger::Ledger;

/// A planner as a shared balanced tree of points, one for each second at which spans start or end. Each call takes a
/// number of steps that grows with the binary digits of the number of points, and `first_at_least` that many for each
/// point. It keeps the next stretches of time over each of which the same is free, from the last moment on for which it
/// was made ready: questions about these look at no point.
#[derive(Drop)]
pub struct MinTree {
    horizon: u64,
    total: u64,
    near: Near,
    points: Timeline,
}

impl Model for MinTree {
    ghost use Rattle.planner_min_tree.specs.Plans.{Plan};
    ghost use Rattle.planner_min_tree.specs.Stands.{IsPlan};

    ghost Value = { Plan };

    ghost view = { λ tree. record { total = tree.total; horizon = tree.horizon; points = tree.points } };

    ghost invariant = { λ tree. IsPlan tree };
}

/// Law: a planner has at most two points for each span of any list that it stands for.
pub fn has_few_points(planner: &MinTree)
    ensures { (spans : List Span) → StandsFor planner.now spans → length planner.now.points ≤ 2 * length spans }
{
    let _ = planner;
}

impl MinTree {
    ghost use Rattle.std.specs.Prelude.{◌↔◌, IsTrue};
    ghost use Rattle.planner_min_tree.specs.Points.{first_from};

    /// Notes the next stretches anew, after a change of the points.
    #[tactic(auto, using(crate::proofs::PlanFacts::marks_run))]
    fn renew<L: Ledger>(&mut self, steps: &mut Steps<L>)
        ensures same { self.new ≡ self.old }
        ensures work { steps.new ≤ steps.old + 2 * dig (length self.old.points + 2) }
    {
        let from = self.near.from();
        let mut stretches = ArrayVec::new();
        self.points
            .note_near(from, self.total, &mut stretches, steps);
        self.near = Near::of(from, stretches);
    }

    /// The first point after that second.
    fn next<L: Ledger>(&self, after: u64, steps: &mut Steps<L>) -> Option<Point>
        ensures point { result ≡ first_from (after + 1) self.now.points }
        ensures work { steps.new ≤ steps.old + 2 * dig (length self.now.points + 2) }
        ensures counted { steps.old ≤ steps.new }
    {
        self.points.first_from(after as u128 + 1, steps)
    }

    /// Whether so much is free from t on for so long, and all of that before the horizon.
    fn may_start<L: Ledger>(
        &self,
        t: u64,
        duration: u64,
        quantity: u64,
        steps: &mut Steps<L>,
    ) -> bool
        requires { 1 ≤ duration }
        ensures answer { (spans : List Span) → StandsFor self.now spans →
            (IsTrue result ↔ MayStart self.now.total self.now.horizon spans duration quantity t) }
        ensures work { steps.new ≤ steps.old + 4 * dig (length self.now.points + 2) }
    {
        let horizon = self.horizon;
        if duration > horizon || t > horizon - duration {
            return false;
        }
        let window = Window {
            from: t,
            to: t + duration,
        };
        self.min_over(window, steps) >= quantity
    }
}

impl Planner for MinTree {
    ghost use Rattle.std.specs.Prelude.{◌*◌, ◌+◌, length};
    ghost use Rattle.flux_defs.specs.Digits.{dig};
    ghost use Rattle.planner_min_tree.specs.Plans.{Plan, StandsFor};
    ghost use Rattle.std.proofs.Common.{sym, ◌∙◌};

    ghost total_of = { λ planner. planner.total };

    ghost horizon_of = { λ planner. planner.horizon };

    ghost stands_for = { λ planner spans. StandsFor planner spans };

    ghost look_cost = { λ planner. 16 * dig (length planner.points + 2) };

    ghost change_cost = { λ planner. 128 * dig (length planner.points + 2) };

    ghost settle_cost = { λ planner. 128 * dig (length planner.points + 2) };

    /// The planner without spans. It takes no memory.
    fn empty(_alloc: Global, total: u64, horizon: u64) -> Result<MinTree, AllocError> {
        Ok(MinTree {
            total,
            horizon,
            near: Near::always(total),
            points: Timeline::empty(),
        })
    }

    fn share(&self) -> Result<MinTree, AllocError>
        ensures { IfOk result (λ same. same ≡ self.now) }
    {
        let near = self.near.copy()?;
        let points = self.points.share()?;
        Ok(MinTree {
            total: self.total,
            horizon: self.horizon,
            near,
            points,
        })
    }

    #[inline]
    fn settle<L: Ledger>(
        &mut self,
        alloc: Global,
        moment: u64,
        steps: &mut Steps<L>,
    ) -> Result<(), AllocError>
        ensures same { OnOk result (self.new ≡ self.old) }
        ensures work { steps.new ≤ steps.old + 128 * dig (length self.old.points + 2) }
    {
        self.near = Near::none(moment);
        match self.points.settle(alloc, moment, steps) {
            Ok(()) => Ok(()),
            Err(refused) => {
                self.points = Timeline::empty();
                Err(refused)
            }
        }
    }

    fn add_span<L: Ledger>(
        &mut self,
        alloc: Global,
        window: Window,
        quantity: u64,
        steps: &mut Steps<L>,
    ) -> Result<(), AllocError>
        requires window { window.from < window.to }
        requires room { (spans : List Span) → StandsFor self.old spans →
            HasRoom self.old.total spans window quantity }
        ensures total { OnOk result (self.new.total ≡ self.old.total) }
        ensures horizon { OnOk result (self.new.horizon ≡ self.old.horizon) }
        ensures spans { OnOk result ((before after : List Span) → StandsFor self.old (before ++ after) →
            StandsFor self.new (before ++ span_of window quantity ∷ after)) }
        ensures work { steps.new ≤ steps.old + 128 * dig (length self.old.points + 2) }
    {
        let stop = Mark {
            time: window.to,
            taken: 0,
            given: quantity,
        };
        let start = Mark {
            time: window.from,
            taken: quantity,
            given: 0,
        };
        self.near = Near::none(self.near.from());
        match self
            .points
            .change_twice(alloc, Change::More(stop), Change::More(start), steps)
        {
            Ok(()) => {
                self.renew(steps);
                Ok(())
            }
            Err(refused) => {
                self.points = Timeline::empty();
                Err(refused)
            }
        }
    }

    fn remove_span<L: Ledger>(
        &mut self,
        alloc: Global,
        window: Window,
        quantity: u64,
        steps: &mut Steps<L>,
    ) -> Result<(), AllocError>
        requires window { window.from < window.to }
        requires span { HasSpan (StandsFor self.old) (span_of window quantity) }
        ensures total { OnOk result (self.new.total ≡ self.old.total) }
        ensures horizon { OnOk result (self.new.horizon ≡ self.old.horizon) }
        ensures spans { OnOk result ((before after : List Span) →
            StandsFor self.old (before ++ span_of window quantity ∷ after) → StandsFor self.new (before ++ after)) }
        ensures work { steps.new ≤ steps.old + 128 * dig (length self.old.points + 2) }
    {
        let start = Mark {
            time: window.from,
            taken: quantity,
            given: 0,
        };
        let stop = Mark {
            time: window.to,
            taken: 0,
            given: quantity,
        };
        self.near = Near::none(self.near.from());
        match self
            .points
            .change_twice(alloc, Change::Less(start), Change::Less(stop), steps)
        {
            Ok(()) => {
                self.renew(steps);
                Ok(())
            }
            Err(refused) => {
                self.points = Timeline::empty();
                Err(refused)
            }
        }
    }

    fn with_span<L: Ledger>(
        &self,
        alloc: Global,
        window: Window,
        quantity: u64,
        steps: &mut Steps<L>,
    ) -> Result<MinTree, AllocError>
        requires window { window.from < window.to }
        requires room { (spans : List Span) → StandsFor self.now spans → HasRoom self.now.total spans window quantity }
        ensures total { IfOk result (λ planner. planner.total ≡ self.now.total) }
        ensures horizon { IfOk result (λ planner. planner.horizon ≡ self.now.horizon) }
        ensures spans { IfOk result (λ planner. (before after : List Span) → StandsFor self.now (before ++ after) →
            StandsFor planner (before ++ span_of window quantity ∷ after)) }
        ensures work { steps.new ≤ steps.old + 128 * dig (length self.now.points + 2) }
    {
        let mut more = self.share()?;
        more.add_span(alloc, window, quantity, steps)?;
        Ok(more)
    }

    fn without_span<L: Ledger>(
        &self,
        alloc: Global,
        window: Window,
        quantity: u64,
        steps: &mut Steps<L>,
    ) -> Result<MinTree, AllocError>
        requires window { window.from < window.to }
        requires span { HasSpan (StandsFor self.now) (span_of window quantity) }
        ensures total { IfOk result (λ planner. planner.total ≡ self.now.total) }
        ensures horizon { IfOk result (λ planner. planner.horizon ≡ self.now.horizon) }
        ensures spans { IfOk result (λ planner. (before after : List Span) →
            StandsFor self.now (before ++ span_of window quantity ∷ after) → StandsFor planner (before ++ after)) }
        ensures work { steps.new ≤ steps.old + 128 * dig (length self.now.points + 2) }
    {
        let mut less = self.share()?;
        less.remove_span(alloc, window, quantity, steps)?;
        Ok(less)
    }

    #[tactic(auto, using(crate::proofs::PlanFacts::marks_run))]
    fn min_over<L: Ledger>(&self, window: Window, steps: &mut Steps<L>) -> u64
        requires { window.from < window.to }
        ensures least { (spans : List Span) → StandsFor self.now spans →
            IsLeastFree self.now.total spans window result }
        ensures work { steps.new ≤ steps.old + 4 * dig (length self.now.points + 2) }
        ensures counted { steps.old ≤ steps.new }
    {
        match self.near.level(window) {
            Some(level) => level,
            None => self
                .points
                .lowest_in(window.from, window.to, self.total, steps),
        }
    }

    #[tactic(auto, using(crate::proofs::PlanFacts::marks_run))]
    #[inline(always)]
    fn has_room<L: Ledger>(&self, window: Window, quantity: u64, steps: &mut Steps<L>) -> bool
        requires { window.from < window.to }
        ensures answer { (spans : List Span) → StandsFor self.now spans →
            MatchBool result (HasRoom self.now.total spans window quantity)
            (SomeMoment window (λ m. free_at self.now.total spans m < quantity)) }
        ensures work { steps.new ≤ steps.old + 4 * dig (length self.now.points + 2) }
        ensures counted { steps.old ≤ steps.new }
    {
        match self.near.room(window, quantity) {
            Some(room) => room,
            None => self.min_over(window, steps) >= quantity,
        }
    }

    #[tactic(auto, using(crate::proofs::PlanFacts::marks_run))]
    fn last_below<L: Ledger>(
        &self,
        window: Window,
        quantity: u64,
        steps: &mut Steps<L>,
    ) -> Option<u64>
        requires { window.from < window.to }
        ensures last { (spans : List Span) → StandsFor self.now spans →
            MatchOption result (HasRoom self.now.total spans window quantity)
            (IsLastBelow self.now.total spans window quantity) }
        ensures work { steps.new ≤ steps.old + 4 * dig (length self.now.points + 2) }
        ensures counted { steps.old ≤ steps.new }
    {
        if let Some(end) = self.near.low_end(window, quantity) {
            return if end == 0 { None } else { Some(end - 1) };
        }
        match self
            .points
            .low_after(window.from, window.to, quantity, self.total, steps)
        {
            None => None,
            Some(end) => Some(end - 1),
        }
    }

    fn first_at_least<L: Ledger>(
        &self,
        from: u64,
        duration: u64,
        quantity: u64,
        steps: &mut Steps<L>,
    ) -> Option<u64>
        requires { 1 ≤ duration }
        ensures first { (spans : List Span) → StandsFor self.now spans →
            MatchOption result
            ((t : ℕ) → from ≤ t → MayStart self.now.total self.now.horizon spans duration quantity t → ⊥)
            (IsFirstStart self.now.total self.now.horizon spans from duration quantity) }
        ensures work { steps.new ≤ steps.old + 64 * ((length self.now.points + 2) * dig (length self.now.points + 2)) }
    {
        let mut t = from;
        loop {
            if self.may_start(t, duration, quantity, steps) {
                return Some(t);
            }
            let Some(point) = self.next(t, steps) else {
                return None;
            };
            t = point.time;
        }
    }

    #[tactic(auto, using(crate::proofs::PlanFacts::marks_run))]
    fn first_free<L: Ledger>(&self, from: u64, quantity: u64, steps: &mut Steps<L>) -> Option<u64>
        ensures first { (spans : List Span) → StandsFor self.now spans →
            MatchOption result
            ((t : ℕ) → from ≤ t → free_at self.now.total spans t < quantity)
            (IsFirstFree self.now.total spans from quantity) }
        ensures work { steps.new ≤ steps.old + 16 * dig (length self.now.points + 2) }
        ensures counted { steps.old ≤ steps.new }
    {
        if let Some(first) = self.near.first_high(from, quantity) {
            return Some(first);
        }
        if self.points.value_at(from, self.total, steps) >= quantity {
            return Some(from);
        }
        self.points.rise_after(from, quantity, self.total, steps)
    }

    fn next_point<L: Ledger>(&self, after: u64, steps: &mut Steps<L>) -> Option<u64>
        ensures next { (spans : List Span) → StandsFor self.now spans →
            MatchOption result ((t : ℕ) → after < t → IsEnd spans t → ⊥) (IsNextEnd spans after) }
        ensures work { steps.new ≤ steps.old + 16 * dig (length self.now.points + 2) }
        ensures counted { steps.old ≤ steps.new }
    {
        let Some(point) = self.next(after, steps) else {
            return None;
        };
        Some(point.time)
    }

    ghost same_free = { λ planner some others a b m. sym (a.free m) ∙ b.free m };
}
