//! Planners that are made ready and then changed.
ghost use Rattle.std.specs.Prelude.{◌≡◌, ◌+◌, ◌<◌, ◌≤◌, List, ◌∷◌, ◌++◌, OnOk};
ghost use Rattle.planner_points.specs.declared.spans.Span.{Span};
ghost use Rattle.planner_points.specs.Spans.{span_of, HasRoom, HasSpan};
ghost use Rattle.planner_points.specs.Work.{renew_cost};

use crate::planners::Planner;
use flux_defs::{Steps, Window};
use std::alloc::{AllocError, Global};
use std::sync::ledger::Ledger;

/// Makes the planner ready for questions from that second on, and then adds one span, as `add_span` does.
pub fn renew_with<P: Planner + Drop, L: Ledger>(
    planner: &mut P,
    alloc: Global,
    moment: u64,
    window: Window,
    quantity: u64,
    steps: &mut Steps<L>,
) -> Result<(), AllocError>
    requires window { window.from < window.to }
    requires room { (spans : List Span) → P.stands_for planner.old spans →
        HasRoom (P.total_of planner.old) spans window quantity }
    ensures total { OnOk result (P.total_of planner.new ≡ P.total_of planner.old) }
    ensures horizon { OnOk result (P.horizon_of planner.new ≡ P.horizon_of planner.old) }
    ensures spans { OnOk result ((before after : List Span) → P.stands_for planner.old (before ++ after) →
        P.stands_for planner.new (before ++ span_of window quantity ∷ after)) }
    ensures work { steps.new ≤ steps.old + renew_cost P.settle_cost P.change_cost planner.old }
{
    planner.settle(alloc, moment, steps)?;
    planner.add_span(alloc, window, quantity, steps)
}

/// Makes the planner ready for questions from that second on, and then removes one span, as `remove_span` does.
pub fn renew_without<P: Planner + Drop, L: Ledger>(
    planner: &mut P,
    alloc: Global,
    moment: u64,
    window: Window,
    quantity: u64,
    steps: &mut Steps<L>,
) -> Result<(), AllocError>
    requires window { window.from < window.to }
    requires span { HasSpan (P.stands_for planner.old) (span_of window quantity) }
    ensures total { OnOk result (P.total_of planner.new ≡ P.total_of planner.old) }
    ensures horizon { OnOk result (P.horizon_of planner.new ≡ P.horizon_of planner.old) }
    ensures spans { OnOk result ((before after : List Span) →
        P.stands_for planner.old (before ++ span_of window quantity ∷ after) →
        P.stands_for planner.new (before ++ after)) }
    ensures work { steps.new ≤ steps.old + renew_cost P.settle_cost P.change_cost planner.old }
{
    planner.settle(alloc, moment, steps)?;
    planner.remove_span(alloc, window, quantity, steps)
}
