//! Planners side by side.
ghost use Rattle.std.specs.Prelude.{◌≡◌, ◌<◌, ◌≤◌, List, ◌∷◌, ◌++◌, length, IfOk};
ghost use Rattle.planner_points.specs.declared.spans.Span.{Span};
ghost use Rattle.planner_points.specs.Spans.{span_of};
ghost use Rattle.multi_planner.specs.Places.{AtEachThree};

use flux_defs::{List, Steps, Window};
use multi_planner::MultiPlanner;
use planner_points::Planner;
use std::alloc::{AllocError, Global};
use std::sync::ledger::Ledger;

/// The planners with these spans, where they have room.
fn add<P: Planner + Drop, L: Ledger>(
    alloc: Global,
    multi: &MultiPlanner<P>,
    window: Window,
    amounts: &List<u64>,
    steps: &mut Steps<L>,
) -> Result<MultiPlanner<P>, AllocError>
    requires places { length amounts.now ≡ length multi.now }
    requires window { window.from < window.to }
    ensures places { IfOk result (λ new. length new ≡ length multi.now) }
    ensures spans { IfOk result (λ new. AtEachThree (λ old amount planner. (before after : List Span) →
        P.stands_for old (before ++ after) → P.stands_for planner (before ++ span_of window amount ∷ after))
        multi.now amounts.now new) }
{
    for place in 0..multi.len() {
        let Some(amount) = amounts.get(place) else {
            unreachable!()
        };
        if multi.min_of(place, window, steps) < *amount {
            return Err(AllocError);
        }
    }
    multi.with_spans(alloc, window, amounts, steps)
}

/// Two numbers as a list.
fn two(alloc: Global, first: u64, second: u64) -> Result<List<u64>, AllocError>
    ensures { IfOk result (λ both. length both ≡ 2) }
{
    let mut both = List::new(alloc);
    match both.push(first) {
        Ok(()) => {}
        Err((_, refused)) => return Err(refused),
    }
    match both.push(second) {
        Ok(()) => Ok(both),
        Err((_, refused)) => Err(refused),
    }
}

/// What is free over the sixth second of totals of 4 and 8: with the spans, and without them again.
pub fn told<P: Planner + Drop, L: Ledger>(
    alloc: Global,
    steps: &mut Steps<L>,
) -> Result<[u64; 4], AllocError> {
    let totals = two(alloc, 4, 8)?;
    let amounts = two(alloc, 4, 2)?;
    let window = Window { from: 0, to: 10 };
    let sixth = Window { from: 5, to: 6 };
    let none: MultiPlanner<P> = MultiPlanner::empty(alloc, &totals, 100)?;
    let some = add(alloc, &none, window, &amounts, steps)?;
    let again = some.without_spans(alloc, window, &amounts, steps)?;
    Ok([
        some.min_of(0, sixth, steps),
        some.min_of(1, sixth, steps),
        again.min_of(0, sixth, steps),
        again.min_of(1, sixth, steps),
    ])
}
