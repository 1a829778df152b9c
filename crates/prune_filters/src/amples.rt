//! From when on a kept total is enough.
ghost use Rattle.std.specs.Prelude.{◌+◌, ◌<◌, ◌≤◌, List, IfSome};
ghost use Rattle.prune_filters.specs.Amples.{IsNextAmpleOrNone};
ghost use Rattle.flux_defs.specs.Present.{InEach};

use flux_defs::{FreeView, Steps};
use std::sync::ledger::Ledger;

/// A view that tells from when on the root's total of a kind is enough. As with each view the answer holds for all
/// that it stands for, takes no memory, and takes at least one step and at most `cost`.
pub trait TotalsView: FreeView {
    /// The least start or end of a job that is later than the moment, in seconds, and at which the root's total of the
    /// kind is that much; `None` exactly where there is none. The view's filter rules have to keep that total.
    fn next_ample<L: Ledger>(
        &self,
        after: u64,
        kind: u32,
        amount: u64,
        steps: &mut Steps<L>,
    ) -> Option<u64>
        requires kept { Self.keeps self.now 0 kind }
        ensures later { IfSome result (λ t. after < t) }
        ensures answer { InEach (Self.stands_for self.now) (λ present. IsNextAmpleOrNone (Self.graph self.now) present
            kind amount after result) }
        ensures some_work { steps.old < steps.new }
        ensures work { steps.new ≤ steps.old + Self.cost self.now };
}
