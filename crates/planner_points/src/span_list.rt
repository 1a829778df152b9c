//! A planner that keeps its spans as a list: plain and slow, to compare others with.
ghost use Rattle.std.specs.Prelude.{◌≡◌, ℕ, ◌+◌, ◌-◌, ◌<◌, ◌≤◌, ◌↔◌, IsTrue, List, [], ◌∷◌, ◌++◌, length, Some};
ghost use Rattle.std.specs.Prelude.{slice_get, IfOk, MatchOption};
ghost use Rattle.planner_points.specs.declared.spans.Span.{Span};
ghost use Rattle.planner_points.specs.Spans.{used_at, free_at, span_of, HasRoom, HasSpan, IsLeastFree, IsEnd};
ghost use Rattle.planner_points.specs.Spans.{IsNextEnd, MayStart, IsFirstStart, IsFirstFree, IsLastBelow};
ghost use Rattle.planner_points.specs.Lists.{sooner, count_of};

use crate::planners::Planner;
use crate::spans::Span;
use flux_defs::{List, Steps, Window};
use std::alloc::{AllocError, Global};
use std::mem;
use std::sync::ledger::Ledger;

/// A planner that keeps the list of its spans, and walks over all of them for each answer.
#[derive(Drop)]
pub struct SpanList {
    alloc: Global,
    total: u64,
    horizon: u64,
    spans: List<Span>,
}

/// What the spans leave of a number at a second.
fn left_at(spans: &[Span], m: u64, free: u64) -> u64
    ensures { result ≡ free_at free spans.now m }
{
    match spans {
        [] => free,
        [span, rest @ ..] => {
            if span.window.from <= m && m < span.window.to {
                left_at(rest, m, free.saturating_sub(span.quantity))
            } else {
                left_at(rest, m, free)
            }
        }
    }
}

/// The one of two seconds that comes sooner, of those after `after`.
fn sooner(best: Option<u64>, t: u64, after: u64) -> Option<u64>
    ensures { result ≡ sooner best t after }
{
    if t <= after {
        return best;
    }
    match best {
        None => Some(t),
        Some(best) => Some(best.min(t)),
    }
}

/// The least start or end of a span after that second.
fn next_end(spans: &[Span], after: u64) -> Option<u64>
    ensures { MatchOption result ((t : ℕ) → after < t → IsEnd spans.now t → ⊥) (IsNextEnd spans.now after) }
{
    match spans {
        [] => None,
        [span, rest @ ..] => {
            let later = next_end(rest, after);
            let with_stop = sooner(later, span.window.to, after);
            sooner(with_stop, span.window.from, after)
        }
    }
}

/// The end of the stretch from t on over which no span starts or ends: the next start or end of one, or `to`.
fn stretch_end(spans: &[Span], t: u64, to: u64) -> u64
    requires { t < to }
    ensures later { t < result }
    ensures within { result ≤ to }
    ensures same { (e : ℕ) → t < e → e < result → IsEnd spans.now e → ⊥ }
{
    match next_end(spans, t) {
        None => to,
        Some(next) => next.min(to),
    }
}

/// The place of the first such span.
fn place_of(spans: &[Span], span: Span) -> usize
    requires { 0 < count_of span spans.now }
    ensures place { slice_get spans.now result ≡ Some span }
    ensures within { result < length spans.now }
{
    match spans {
        [] => unreachable!(),
        [first, rest @ ..] => {
            if *first == span {
                0
            } else {
                place_of(rest, span) + 1
            }
        }
    }
}

impl SpanList {
    /// The least that is free over the window: at its start, or where a span starts or ends in it.
    fn least_over(&self, window: Window) -> u64
        requires { window.from < window.to }
        ensures { IsLeastFree self.now.total self.now.spans window result }
    {
        let spans = self.spans.items();
        let mut t = window.from;
        let mut least = left_at(spans, t, self.total);
        loop {
            let Some(next) = next_end(spans, t) else {
                return least;
            };
            if next >= window.to {
                return least;
            }
            t = next;
            least = least.min(left_at(spans, t, self.total));
        }
    }

    /// Whether so much is free from t on for so long, and all of that before the horizon.
    fn may_start(&self, t: u64, duration: u64, quantity: u64) -> bool
        requires { 1 ≤ duration }
        ensures { IsTrue result ↔ MayStart self.now.total self.now.horizon self.now.spans duration quantity t }
    {
        let horizon = self.horizon;
        if duration > horizon || t > horizon - duration {
            return false;
        }
        let window = Window {
            from: t,
            to: t + duration,
        };
        self.least_over(window) >= quantity
    }

    /// The least second from which so much is free for so long: the asked one, or one at which a span starts or ends.
    fn first_start(&self, from: u64, duration: u64, quantity: u64) -> Option<u64>
        requires { 1 ≤ duration }
        ensures { MatchOption result
            ((t : ℕ) → from ≤ t → MayStart self.now.total self.now.horizon self.now.spans duration quantity t → ⊥)
            (IsFirstStart self.now.total self.now.horizon self.now.spans from duration quantity) }
    {
        let mut t = from;
        loop {
            if self.may_start(t, duration, quantity) {
                return Some(t);
            }
            let Some(next) = next_end(self.spans.items(), t) else {
                return None;
            };
            t = next;
        }
    }
}

impl SpanList {
    /// The least second from the asked one on at which so much is free: the asked one, or one at which a span starts or
    /// ends.
    fn first_left(&self, from: u64, quantity: u64) -> Option<u64>
        ensures { MatchOption result
            ((t : ℕ) → from ≤ t → free_at self.now.total self.now.spans t < quantity)
            (IsFirstFree self.now.total self.now.spans from quantity) }
    {
        let spans = self.spans.items();
        let mut t = from;
        'seconds: loop {
            if left_at(spans, t, self.total) >= quantity {
                return Some(t);
            }
            let Some(next) = next_end(spans, t) else {
                return None;
            };
            t = next;
        }
    }
}

impl SpanList {
    /// The last second of the window at which less than so much is free: the last one of a stretch over which no span
    /// starts or ends.
    fn last_left(&self, window: Window, quantity: u64) -> Option<u64>
        requires { window.from < window.to }
        ensures { MatchOption result (HasRoom self.now.total self.now.spans window quantity)
            (IsLastBelow self.now.total self.now.spans window quantity) }
    {
        let spans = self.spans.items();
        let mut t = window.from;
        let mut last = None;
        'stretches: while t < window.to {
            let end = stretch_end(spans, t, window.to);
            if left_at(spans, t, self.total) < quantity {
                last = Some(end - 1);
            }
            t = end;
        }
        last
    }
}

impl Planner for SpanList {
    ghost use Rattle.planner_points.specs.Lists.{AreSame, same_free_of};

    ghost total_of = { λ planner. planner.total };

    ghost horizon_of = { λ planner. planner.horizon };

    ghost stands_for = { λ planner spans. AreSame planner.spans spans };

    ghost look_cost = { λ _. 0 };

    ghost change_cost = { λ _. 0 };

    ghost settle_cost = { λ _. 0 };

    /// The planner without spans. It takes no memory.
    fn empty(alloc: Global, total: u64, horizon: u64) -> Result<SpanList, AllocError> {
        Ok(SpanList {
            alloc,
            total,
            horizon,
            spans: List::new(alloc),
        })
    }

    /// A copy of the list.
    fn share(&self) -> Result<SpanList, AllocError> {
        let spans = Vec::from_slice(self.alloc, self.spans.items())?;
        Ok(SpanList {
            alloc: self.alloc,
            total: self.total,
            horizon: self.horizon,
            spans: List::of_vec(spans),
        })
    }

    /// Nothing stands apart: each answer walks over the whole list.
    fn settle<L: Ledger>(
        &mut self,
        _alloc: Global,
        _moment: u64,
        _steps: &mut Steps<L>,
    ) -> Result<(), AllocError> {
        Ok(())
    }

    fn add_span<L: Ledger>(
        &mut self,
        _alloc: Global,
        window: Window,
        quantity: u64,
        _steps: &mut Steps<L>,
    ) -> Result<(), AllocError> {
        match self.spans.push(Span { window, quantity }) {
            Ok(()) => Ok(()),
            Err(_) => Err(AllocError),
        }
    }

    fn remove_span<L: Ledger>(
        &mut self,
        _alloc: Global,
        window: Window,
        quantity: u64,
        _steps: &mut Steps<L>,
    ) -> Result<(), AllocError> {
        let at = place_of(self.spans.items(), Span { window, quantity });
        let mut spans = mem::replace(&mut self.spans, List::new(self.alloc)).into_vec();
        spans.remove(at);
        self.spans = List::of_vec(spans);
        Ok(())
    }

    fn with_span<L: Ledger>(
        &self,
        alloc: Global,
        window: Window,
        quantity: u64,
        steps: &mut Steps<L>,
    ) -> Result<SpanList, AllocError> {
        let mut more = self.share()?;
        more.add_span(alloc, window, quantity, steps)?;
        Ok(more)
    }

    fn without_span<L: Ledger>(
        &self,
        alloc: Global,
        window: Window,
        quantity: u64,
        steps: &mut Steps<L>,
    ) -> Result<SpanList, AllocError> {
        let mut less = self.share()?;
        less.remove_span(alloc, window, quantity, steps)?;
        Ok(less)
    }

    fn min_over<L: Ledger>(&self, window: Window, _steps: &mut Steps<L>) -> u64 {
        self.least_over(window)
    }

    fn has_room<L: Ledger>(&self, window: Window, quantity: u64, _steps: &mut Steps<L>) -> bool {
        self.least_over(window) >= quantity
    }

    fn last_below<L: Ledger>(
        &self,
        window: Window,
        quantity: u64,
        _steps: &mut Steps<L>,
    ) -> Option<u64> {
        self.last_left(window, quantity)
    }

    fn first_at_least<L: Ledger>(
        &self,
        from: u64,
        duration: u64,
        quantity: u64,
        _steps: &mut Steps<L>,
    ) -> Option<u64> {
        self.first_start(from, duration, quantity)
    }

    fn first_free<L: Ledger>(
        &self,
        from: u64,
        quantity: u64,
        _steps: &mut Steps<L>,
    ) -> Option<u64> {
        self.first_left(from, quantity)
    }

    fn next_point<L: Ledger>(&self, after: u64, _steps: &mut Steps<L>) -> Option<u64> {
        next_end(self.spans.items(), after)
    }

    ghost same_free = { same_free_of };
}
