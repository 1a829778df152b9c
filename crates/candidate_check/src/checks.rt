//! Claims, one by one.
ghost use Rattle.std.specs.Prelude.{◌≡◌, ℕ, ◌+◌, ◌*◌, ◌<◌, ◌≤◌, ◌↔◌, IsTrue, length, List, All, MatchOption};
ghost use Rattle.flux_defs.specs.Jobs.{vertex_of};
ghost use Rattle.flux_defs.specs.Closed.{no_bars};
ghost use Rattle.flux_defs.specs.Available.{IsAvailable};
ghost use Rattle.flux_defs.specs.Present.{InEach};
ghost use Rattle.flux_defs.specs.Views.{MayBeAsked};
ghost use Rattle.candidate_check.specs.Taken.{IsFirstGone};

use flux_defs::{Claim, FreeView, List, Steps, Window};
use std::sync::ledger::Ledger;

/// Whether the claim is available at each moment of the window, to an ask that bars nothing. It takes no memory.
pub fn is_available<F: FreeView, L: Ledger>(
    view: &F,
    claim: Claim,
    window: Window,
    steps: &mut Steps<L>,
) -> bool
    requires asked { MayBeAsked (F.graph view.now) (vertex_of claim) window }
    ensures answer { InEach (F.stands_for view.now)
        (λ present. IsTrue result ↔ IsAvailable (no_bars (F.graph view.now) present) window claim) }
    ensures some_work { steps.old < steps.new }
    ensures work { steps.new ≤ steps.old + 2 * F.cost view.now }
{
    match claim {
        Claim::Take { vertex, quantity } => quantity <= view.free_over(vertex, window, steps),
        Claim::Hold { vertex } => {
            if view.closed_over(vertex, window, steps) {
                return false;
            }
            !view.touched_over(vertex, window, steps)
        }
        Claim::Pass { vertex } => !view.closed_over(vertex, window, steps),
    }
}

/// The index of the first claim that isn't available over the window, to an ask that bars nothing; `None` exactly where
/// all are. It takes no memory, and for a claim at most two looks at the view.
pub fn still_free<F: FreeView, L: Ledger>(
    view: &F,
    claims: &List<Claim>,
    window: Window,
    steps: &mut Steps<L>,
) -> Option<usize>
    requires vertices { All (λ c. vertex_of c < length (F.graph view.now)) claims.now }
    requires window { window.from < window.to }
    ensures answer { InEach (F.stands_for view.now)
        (λ present. MatchOption result (All (IsAvailable (no_bars (F.graph view.now) present) window) claims.now)
        (IsFirstGone (F.graph view.now) present window claims.now)) }
    ensures work { steps.new ≤ steps.old + 2 * F.cost view.now * length claims.now }
{
    for (index, claim) in claims.items().iter().enumerate() {
        if !is_available(view, *claim, window, steps) {
            return Some(index);
        }
    }
    None
}
