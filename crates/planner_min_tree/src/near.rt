//! The next stretches of time over which the same is free.
ghost use Rattle.std.specs.Prelude.{◌≡◌, ℕ, ◌+◌, ◌^◌, ◌<◌, ◌≤◌, ◌⊎◌, ◌↔◌, IsTrue, List, [], ◌∷◌, ◌++◌, IfOk, IfSome};
ghost use Rattle.std.specs.Prelude.{MatchBool, length};
ghost use Rattle.flux_defs.specs.Jobs.{EachMoment, SomeMoment};
ghost use Rattle.planner_min_tree.specs.declared.points.Point.{Point};
ghost use Rattle.planner_min_tree.specs.Nears.{AreStretches, GoOn, IsLowEnd, IsFirstHigh, known};
ghost use Rattle.planner_min_tree.specs.Points.{Runs, value_at};

use crate::chunks::copied;
use crate::points::Point;
use arrayvec::ArrayVec;
use flux_defs::Window;
use std::alloc::AllocError;
use std::marker::Model;

/// How many stretches are known at most.
pub const NEXT: usize = 8;

/// So much is free before that second, since the stretch before it.
#[derive(Clone, Copy, Debug, Default)]
pub struct Stretch {
    pub to: u64,
    pub level: u64,
}

/// The next stretches from a second on, one behind the other, as far as they are known. How many there are stands
/// before the first of them, so that most questions read the front alone. Contracts see the second and the list.
#[derive(Drop)]
pub struct Near {
    from: u64,
    count: usize,
    stretches: ArrayVec<Stretch, NEXT>,
}

impl Model for Near {
    ghost use Rattle.std.specs.Prelude.{◌≡◌, length};
    ghost use Rattle.planner_min_tree.specs.Nears.{Known, known};

    ghost Value = { Known };

    ghost view = { λ near. known near.from near.stretches.items };

    ghost invariant = { λ near. near.count ≡ length near.stretches.items };
}

/// Adds a stretch behind the others, where there is room for it.
#[inline(always)]
fn put(stretches: &mut ArrayVec<Stretch, NEXT>, to: u64, level: u64)
    ensures { (stretches.new.items ≡ stretches.old.items ++ (record { to = to; level = level }) ∷ [])
        ⊎ (stretches.new.items ≡ stretches.old.items) }
{
    if stretches.is_full() {
        return;
    }
    stretches.push(Stretch { to, level });
}

/// Adds the stretches that the points tell of from a second on, as far as there is room for them. What others behind
/// them tell isn't known, unless these are the last.
pub fn note_points(
    points: &[Point],
    from: u64,
    free: u64,
    last: bool,
    stretches: &mut ArrayVec<Stretch, NEXT>,
)
    requires { Runs points.now free }
    ensures { (more : List Point) → (IsTrue last → more ≡ []) →
        GoOn (λ m. value_at m (points.now ++ more) free) stretches.old.items from stretches.new.items }
{
    match points {
        [] => {
            if last {
                put(stretches, u64::MAX, free);
            }
        }
        [point, rest @ ..] => {
            let past = point.past(free);
            if point.time <= from {
                return note_points(rest, from, past, last, stretches);
            }
            if stretches.is_full() {
                return;
            }
            stretches.push(Stretch {
                to: point.time,
                level: free,
            });
            note_points(rest, point.time, past, last, stretches)
        }
    }
}

/// Whether so much is free over the window, which doesn't begin before the stretches; `None` where they don't tell it.
fn room_over(stretches: &[Stretch], from: u64, window: Window, quantity: u64) -> Option<bool>
    requires from { from ≤ window.from }
    requires window { window.from < window.to }
    ensures { (f : ℕ → ℕ) → AreStretches f from stretches.now → IfSome result
        (λ room. MatchBool room (EachMoment window (λ m. quantity ≤ f m)) (SomeMoment window (λ m. f m < quantity))) }
{
    match stretches {
        [] => None,
        [next, rest @ ..] => {
            if next.to <= window.from {
                return room_over(rest, next.to, window, quantity);
            }
            if next.level < quantity {
                return Some(false);
            }
            if window.to <= next.to {
                return Some(true);
            }
            let behind = Window {
                from: next.to,
                to: window.to,
            };
            room_over(rest, next.to, behind, quantity)
        }
    }
}

/// What is free over all of the window, which doesn't begin before the stretches, where it lies in one of them.
fn level_over(stretches: &[Stretch], from: u64, window: Window) -> Option<u64>
    requires from { from ≤ window.from }
    ensures { (f : ℕ → ℕ) → AreStretches f from stretches.now → IfSome result
        (λ level. EachMoment window (λ m. f m ≡ level)) }
{
    match stretches {
        [] => None,
        [next, rest @ ..] => {
            if next.to <= window.from {
                return level_over(rest, next.to, window);
            }
            if window.to <= next.to {
                return Some(next.level);
            }
            None
        }
    }
}

/// Where the last stretch of the time from `from` on and before `to`, which doesn't begin before the stretches, ends
/// over which less than so much is free, and `last` where so much is free at each second; `None` where they don't tell
/// it.
fn low_end_over(
    stretches: &[Stretch],
    start: u64,
    from: u64,
    to: u64,
    quantity: u64,
    last: u64,
) -> Option<u64>
    requires start { start ≤ from }
    requires window { from < to }
    ensures { (f : ℕ → ℕ) → AreStretches f start stretches.now → IfSome result (IsLowEnd f from to quantity last) }
{
    match stretches {
        [] => None,
        [next, rest @ ..] => {
            if next.to <= from {
                return low_end_over(rest, next.to, from, to, quantity, last);
            }
            if next.level < quantity {
                if to <= next.to {
                    return Some(to);
                }
                return low_end_over(rest, next.to, next.to, to, quantity, next.to);
            }
            if to <= next.to {
                return Some(last);
            }
            low_end_over(rest, next.to, next.to, to, quantity, last)
        }
    }
}

/// The first second from `from` on, which isn't before the stretches, at which so much is free; `None` where they don't
/// tell it.
fn first_high(stretches: &[Stretch], start: u64, from: u64, quantity: u64) -> Option<u64>
    requires start { start ≤ from }
    ensures { (f : ℕ → ℕ) → AreStretches f start stretches.now → IfSome result (IsFirstHigh f from quantity) }
{
    match stretches {
        [] => None,
        [next, rest @ ..] => {
            if next.to <= from {
                return first_high(rest, next.to, from, quantity);
            }
            if next.level >= quantity {
                return Some(from);
            }
            first_high(rest, next.to, next.to, quantity)
        }
    }
}

impl Near {
    /// These stretches, from that second on.
    pub fn of(from: u64, stretches: ArrayVec<Stretch, NEXT>) -> Near
        ensures { result ≡ known from stretches.items }
    {
        Near {
            from,
            count: stretches.len(),
            stretches,
        }
    }

    /// No stretch, from that second on.
    pub fn none(from: u64) -> Near
        ensures { result ≡ known from [] }
    {
        Near::of(from, ArrayVec::new())
    }

    /// The one of all time.
    pub fn always(level: u64) -> Near
        ensures { (f : ℕ → ℕ) → ((m : ℕ) → f m ≡ level) → AreStretches f result.from result.stretches }
    {
        let mut stretches = ArrayVec::new();
        put(&mut stretches, u64::MAX, level);
        Near::of(0, stretches)
    }

    /// The same stretches once more.
    pub fn copy(&self) -> Result<Near, AllocError>
        ensures { IfOk result (λ near. near ≡ self.now) }
    {
        let stretches = copied(self.stretches.as_slice())?;
        Ok(Near::of(self.from, stretches))
    }

    /// The second from which on they are known.
    pub fn from(&self) -> u64
        ensures { result ≡ self.now.from }
    {
        self.from
    }

    /// The stretches.
    #[inline(always)]
    fn items(&self) -> &[Stretch]
        ensures { result.now ≡ self.now.stretches }
    {
        &self.stretches.as_slice()[..self.count]
    }

    /// Whether so much is free over the window; `None` where the stretches don't tell it.
    #[inline(always)]
    pub fn room(&self, window: Window, quantity: u64) -> Option<bool>
        requires { window.from < window.to }
        ensures { (f : ℕ → ℕ) → AreStretches f self.now.from self.now.stretches → IfSome result
            (λ room. MatchBool room (EachMoment window (λ m. quantity ≤ f m))
            (SomeMoment window (λ m. f m < quantity))) }
    {
        if window.from < self.from {
            return None;
        }
        room_over(self.items(), self.from, window, quantity)
    }

    /// What is free over all of the window, where it lies in one stretch.
    #[inline(always)]
    pub fn level(&self, window: Window) -> Option<u64>
        ensures { (f : ℕ → ℕ) → AreStretches f self.now.from self.now.stretches → IfSome result
            (λ level. EachMoment window (λ m. f m ≡ level)) }
    {
        if window.from < self.from {
            return None;
        }
        level_over(self.items(), self.from, window)
    }

    /// Where the last stretch of the window ends over which less than so much is free, and 0 where so much is free at
    /// each of its seconds; `None` where the stretches don't tell it.
    #[inline(always)]
    pub fn low_end(&self, window: Window, quantity: u64) -> Option<u64>
        requires { window.from < window.to }
        ensures { (f : ℕ → ℕ) → AreStretches f self.now.from self.now.stretches →
            IfSome result (IsLowEnd f window.from window.to quantity 0) }
    {
        if window.from < self.from {
            return None;
        }
        low_end_over(self.items(), self.from, window.from, window.to, quantity, 0)
    }

    /// The first second from `from` on at which so much is free; `None` where the stretches don't tell it.
    #[inline(always)]
    pub fn first_high(&self, from: u64, quantity: u64) -> Option<u64>
        ensures { (f : ℕ → ℕ) → AreStretches f self.now.from self.now.stretches →
            IfSome result (IsFirstHigh f from quantity) }
    {
        if from < self.from {
            return None;
        }
        first_high(self.items(), self.from, from, quantity)
    }
}
