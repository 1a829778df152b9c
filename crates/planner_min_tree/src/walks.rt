//! What a tree of points says of a moment or a window.
ghost use Rattle.std.specs.Prelude.{◌≡◌, ◌+◌, ◌-◌, ◌*◌, ◌^◌, ◌<◌, ◌≤◌, List, [], ◌++◌, length, IfNone, IsTrue};
ghost use Rattle.planner_min_tree.specs.declared.points.Point.{Point};
ghost use Rattle.planner_min_tree.specs.Chunks.{flat, chunk_at};
ghost use Rattle.planner_min_tree.specs.Points.{Runs, lowest_before, lowest_from, lowest_in, first_from, value_at};
ghost use Rattle.planner_min_tree.specs.Points.{first_rise, rise_after, after, low_end, last_rise};
ghost use Rattle.planner_min_tree.specs.Nears.{GoOn};

use crate::chunks::Chunk;
use crate::near::{NEXT, Stretch, note_points};
use crate::points::{self, Dip, Point};
use arrayvec::ArrayVec;
use balanced_tree::{Shape, Tree};
use flux_defs::Steps;
use std::sync::ledger::Ledger;

/// A tree of points, or one of its sides.
#[derive(Clone, Copy)]
pub struct Side<'a> {
    pub tree: &'a Tree<Chunk, Dip>,
}

/// Which chunk has the place of a moment.
#[tactic(auto, using(crate::proofs::TwoSides::place_facts))]
pub fn chunk_at<L: Ledger>(side: Side<'_>, t: u64, steps: &mut Steps<L>) -> u64
    requires { 0 < length side.tree.now.0 }
    ensures value { result ≡ chunk_at t side.entry.tree.now.0 }
    ensures within { result < length side.entry.tree.now.0 }
    ensures work { steps.new ≤ steps.old + side.entry.tree.now.1 }
{
    let _len = side.tree.len();
    match side.tree.shape(steps) {
        Shape::Empty => 0,
        Shape::Leaf(_) => 0,
        Shape::Fork(left, right) => {
            if left.sum().latest < t {
                left.len() + chunk_at(Side { tree: right }, t, steps)
            } else {
                chunk_at(Side { tree: left }, t, steps)
            }
        }
    }
}

/// The first point that isn't before a moment.
#[tactic(auto, using(crate::proofs::TwoSides::first_facts))]
pub fn first_from<L: Ledger>(side: Side<'_>, t: u128, steps: &mut Steps<L>) -> Option<Point>
    requires { 0 < t }
    ensures value { result ≡ first_from t (flat side.entry.tree.now.0) }
    ensures work { steps.new ≤ steps.old + side.entry.tree.now.1 + 1 }
    ensures counted { steps.old ≤ steps.new }
{
    match side.tree.shape(steps) {
        Shape::Empty => None,
        Shape::Leaf(chunk) => points::first_from(chunk.look(steps), t),
        Shape::Fork(left, right) => {
            if (left.sum().latest as u128) < t {
                first_from(Side { tree: right }, t, steps)
            } else {
                first_from(Side { tree: left }, t, steps)
            }
        }
    }
}

/// The least that is free before a moment.
#[tactic(auto, using(crate::proofs::TwoSides::before_facts))]
pub fn lowest_before<L: Ledger>(side: Side<'_>, to: u64, free: u64, steps: &mut Steps<L>) -> u64
    requires runs { Runs (flat side.tree.now.0) free }
    requires later { 0 < to }
    ensures value { result ≡ lowest_before to (flat side.entry.tree.now.0) free }
    ensures work { steps.new ≤ steps.old + side.entry.tree.now.1 + 1 }
    ensures counted { steps.old ≤ steps.new }
{
    match side.tree.shape(steps) {
        Shape::Empty => free,
        Shape::Leaf(chunk) => points::lowest_before(chunk.look(steps), to, free),
        Shape::Fork(left, right) => {
            let sum = left.sum();
            if sum.latest < to {
                let lowest = free - sum.need;
                lowest.min(lowest_before(Side { tree: right }, to, sum.past(free), steps))
            } else {
                lowest_before(Side { tree: left }, to, free, steps)
            }
        }
    }
}

/// The least that is free at a moment and later.
#[tactic(auto, using(crate::proofs::TwoSides::from_facts))]
pub fn lowest_from<L: Ledger>(side: Side<'_>, from: u64, free: u64, steps: &mut Steps<L>) -> u64
    requires { Runs (flat side.tree.now.0) free }
    ensures value { result ≡ lowest_from from (flat side.entry.tree.now.0) free }
    ensures work { steps.new ≤ steps.old + side.entry.tree.now.1 + 1 }
    ensures counted { steps.old ≤ steps.new }
{
    match side.tree.shape(steps) {
        Shape::Empty => free,
        Shape::Leaf(chunk) => points::lowest_from(chunk.look(steps), from, free),
        Shape::Fork(left, right) => {
            let sum = left.sum();
            let past = sum.past(free);
            if sum.latest <= from {
                lowest_from(Side { tree: right }, from, past, steps)
            } else {
                let lowest = past - right.sum().need;
                lowest.min(lowest_from(Side { tree: left }, from, free, steps))
            }
        }
    }
}

/// The least that is free over a window.
#[tactic(auto, using(crate::proofs::TwoSides::in_facts))]
pub fn lowest_in<L: Ledger>(
    side: Side<'_>,
    from: u64,
    to: u64,
    free: u64,
    steps: &mut Steps<L>,
) -> u64
    requires runs { Runs (flat side.tree.now.0) free }
    requires window { from < to }
    ensures value { result ≡ lowest_in from to (flat side.entry.tree.now.0) free }
    ensures work { steps.new ≤ steps.old + 2 * (side.entry.tree.now.1 + 1) }
    ensures counted { steps.old ≤ steps.new }
{
    match side.tree.shape(steps) {
        Shape::Empty => free,
        Shape::Leaf(chunk) => points::lowest_in(chunk.look(steps), from, to, free),
        Shape::Fork(left, right) => {
            let sum = left.sum();
            if sum.latest <= from {
                lowest_in(Side { tree: right }, from, to, sum.past(free), steps)
            } else if to <= sum.latest {
                lowest_in(Side { tree: left }, from, to, free, steps)
            } else {
                let first = lowest_from(Side { tree: left }, from, free, steps);
                let second = lowest_before(Side { tree: right }, to, sum.past(free), steps);
                first.min(second)
            }
        }
    }
}

/// What is free at a moment.
#[tactic(auto, using(crate::proofs::TwoSides::value_facts))]
pub fn value_at<L: Ledger>(side: Side<'_>, m: u64, free: u64, steps: &mut Steps<L>) -> u64
    requires { Runs (flat side.tree.now.0) free }
    ensures value { result ≡ value_at m (flat side.entry.tree.now.0) free }
    ensures work { steps.new ≤ steps.old + side.entry.tree.now.1 + 1 }
    ensures counted { steps.old ≤ steps.new }
{
    match side.tree.shape(steps) {
        Shape::Empty => free,
        Shape::Leaf(chunk) => points::value_at(chunk.look(steps), m, free),
        Shape::Fork(left, right) => {
            let sum = left.sum();
            if sum.latest <= m {
                value_at(Side { tree: right }, m, sum.past(free), steps)
            } else {
                value_at(Side { tree: left }, m, free, steps)
            }
        }
    }
}

/// Adds the stretches that the points tell of from a moment on, as far as there is room for them and the chunk that has
/// the moment's place tells them. What others behind them tell isn't known, unless these are the last.
#[tactic(auto, using(crate::proofs::TwoSides::value_facts))]
pub fn note_near<L: Ledger>(
    side: Side<'_>,
    from: u64,
    free: u64,
    last: bool,
    stretches: &mut ArrayVec<Stretch, NEXT>,
    steps: &mut Steps<L>,
)
    requires { Runs (flat side.tree.now.0) free }
    ensures noted { (more : List Point) → (IsTrue last → more ≡ []) →
        GoOn (λ m. value_at m (flat side.entry.tree.now.0 ++ more) free) stretches.old.items from
        stretches.new.items }
    ensures work { steps.new ≤ steps.old + side.entry.tree.now.1 + 1 }
{
    match side.tree.shape(steps) {
        Shape::Empty => note_points(&[], from, free, last, stretches),
        Shape::Leaf(chunk) => note_points(chunk.look(steps), from, free, last, stretches),
        Shape::Fork(left, right) => {
            let sum = left.sum();
            if sum.latest <= from {
                note_near(
                    Side { tree: right },
                    from,
                    sum.past(free),
                    last,
                    stretches,
                    steps,
                )
            } else {
                note_near(Side { tree: left }, from, free, false, stretches, steps)
            }
        }
    }
}

/// The time of the first point after which so much is free, where less is before them. It goes down on one way.
#[tactic(auto, using(crate::proofs::TwoSides::rise_facts))]
fn first_rise<L: Ledger>(
    side: Side<'_>,
    quantity: u64,
    free: u64,
    steps: &mut Steps<L>,
) -> Option<u64>
    requires runs { Runs (flat side.tree.now.0) free }
    requires less { free < quantity }
    ensures value { result ≡ first_rise quantity (flat side.entry.tree.now.0) free }
    ensures work { steps.new ≤ steps.old + side.entry.tree.now.1 + 1 }
    ensures counted { steps.old ≤ steps.new }
{
    match side.tree.shape(steps) {
        Shape::Empty => None,
        Shape::Leaf(chunk) => points::first_rise(chunk.look(steps), quantity, free),
        Shape::Fork(left, right) => {
            let sum = left.sum();
            if sum.reaches(free, quantity) {
                first_rise(Side { tree: left }, quantity, free, steps)
            } else {
                first_rise(Side { tree: right }, quantity, sum.past(free), steps)
            }
        }
    }
}

/// The same, which takes no step where there is none.
#[tactic(auto, using(crate::proofs::TwoSides::some_facts))]
pub fn some_rise<L: Ledger>(
    side: Side<'_>,
    quantity: u64,
    free: u64,
    steps: &mut Steps<L>,
) -> Option<u64>
    requires runs { Runs (flat side.tree.now.0) free }
    requires less { free < quantity }
    ensures value { result ≡ first_rise quantity (flat side.entry.tree.now.0) free }
    ensures none { IfNone result (steps.new ≤ steps.old) }
    ensures work { steps.new ≤ steps.old + side.entry.tree.now.1 + 1 }
    ensures counted { steps.old ≤ steps.new }
{
    if !side.tree.sum().reaches(free, quantity) {
        return None;
    }
    first_rise(side, quantity, free, steps)
}

/// The time of the first point that is later than a moment and after which so much is free, where less is at the
/// moment.
#[tactic(auto, using(crate::proofs::TwoSides::after_facts))]
pub fn rise_after<L: Ledger>(
    side: Side<'_>,
    from: u64,
    quantity: u64,
    free: u64,
    steps: &mut Steps<L>,
) -> Option<u64>
    requires runs { Runs (flat side.tree.now.0) free }
    requires less { value_at from (flat side.tree.now.0) free < quantity }
    ensures value { result ≡ rise_after from quantity (flat side.entry.tree.now.0) free }
    ensures none { IfNone result (steps.new ≤ steps.old + side.entry.tree.now.1 + 1) }
    ensures work { steps.new ≤ steps.old + 2 * (side.entry.tree.now.1 + 1) }
    ensures counted { steps.old ≤ steps.new }
{
    match side.tree.shape(steps) {
        Shape::Empty => None,
        Shape::Leaf(chunk) => points::rise_after(chunk.look(steps), from, quantity, free),
        Shape::Fork(left, right) => {
            let sum = left.sum();
            let past = sum.past(free);
            if sum.latest <= from {
                return rise_after(Side { tree: right }, from, quantity, past, steps);
            }
            match rise_after(Side { tree: left }, from, quantity, free, steps) {
                Some(t) => Some(t),
                None => some_rise(Side { tree: right }, quantity, past, steps),
            }
        }
    }
}

/// The time of the last point before which less than so much is free, where so much is behind them. It goes down on one
/// way.
#[tactic(auto, using(crate::proofs::TwoSides::last_facts))]
fn last_rise<L: Ledger>(
    side: Side<'_>,
    quantity: u64,
    free: u64,
    steps: &mut Steps<L>,
) -> Option<u64>
    requires runs { Runs (flat side.tree.now.0) free }
    requires much { quantity ≤ after (flat side.tree.now.0) free }
    ensures value { result ≡ last_rise quantity (flat side.entry.tree.now.0) free }
    ensures work { steps.new ≤ steps.old + side.entry.tree.now.1 + 1 }
    ensures counted { steps.old ≤ steps.new }
{
    match side.tree.shape(steps) {
        Shape::Empty => None,
        Shape::Leaf(chunk) => points::last_rise(chunk.look(steps), quantity, free),
        Shape::Fork(left, right) => {
            let past = left.sum().past(free);
            if past - right.sum().need < quantity {
                last_rise(Side { tree: right }, quantity, past, steps)
            } else {
                last_rise(Side { tree: left }, quantity, free, steps)
            }
        }
    }
}

/// The same, which takes no step where there is none.
#[tactic(auto, using(crate::proofs::TwoSides::any_facts))]
pub fn some_last_rise<L: Ledger>(
    side: Side<'_>,
    quantity: u64,
    free: u64,
    steps: &mut Steps<L>,
) -> Option<u64>
    requires runs { Runs (flat side.tree.now.0) free }
    requires much { quantity ≤ after (flat side.tree.now.0) free }
    ensures value { result ≡ last_rise quantity (flat side.entry.tree.now.0) free }
    ensures none { IfNone result (steps.new ≤ steps.old) }
    ensures work { steps.new ≤ steps.old + side.entry.tree.now.1 + 1 }
    ensures counted { steps.old ≤ steps.new }
{
    let need = side.tree.sum().need;
    if quantity <= free - need {
        return None;
    }
    last_rise(side, quantity, free, steps)
}

/// The second at which the last stretch before a moment ends over which less than so much is free.
#[tactic(auto, using(crate::proofs::TwoSides::low_facts))]
pub fn low_end<L: Ledger>(
    side: Side<'_>,
    to: u64,
    quantity: u64,
    free: u64,
    steps: &mut Steps<L>,
) -> Option<u64>
    requires runs { Runs (flat side.tree.now.0) free }
    requires later { 0 < to }
    ensures value { result ≡ low_end to quantity (flat side.entry.tree.now.0) free }
    ensures none { IfNone result (steps.new ≤ steps.old + side.entry.tree.now.1 + 1) }
    ensures work { steps.new ≤ steps.old + 2 * (side.entry.tree.now.1 + 1) }
    ensures counted { steps.old ≤ steps.new }
{
    match side.tree.shape(steps) {
        Shape::Empty => points::low_to(to, quantity, free),
        Shape::Leaf(chunk) => points::low_end(chunk.look(steps), to, quantity, free),
        Shape::Fork(left, right) => {
            let sum = left.sum();
            if to <= sum.latest {
                return low_end(Side { tree: left }, to, quantity, free, steps);
            }
            match low_end(Side { tree: right }, to, quantity, sum.past(free), steps) {
                Some(t) => Some(t),
                None => some_last_rise(Side { tree: left }, quantity, free, steps),
            }
        }
    }
}
