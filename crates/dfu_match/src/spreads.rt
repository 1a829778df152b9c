//! Which needs are spreads, or hold one.
ghost use Rattle.std.specs.Prelude.{◌≡◌, ◌⊎◌, ◌∷◌, [], IsTrue};
ghost use Rattle.std.specs.List.{AllByRecursion};
ghost use Rattle.flux_defs.specs.declared.requests.Need.{Need};
ghost use Rattle.flux_defs.specs.Needs.{HasNoSpread, IsSpread};

use flux_defs::{List, Need};

/// Whether the need is a spread.
pub(crate) fn is_spread(need: &Need) -> bool
    ensures yes { IsTrue result → IsSpread need.now }
    ensures no { IsSpread need.now → IsTrue result }
{
    match need {
        Need::Spread { .. } => true,
        Need::Vert { .. } | Need::Pool { .. } => false,
    }
}

/// Whether the needs hold no spread, at any depth, or are one alone.
pub(crate) fn asks_once(needs: &List<Need>) -> bool
    ensures { IsTrue result → AllByRecursion HasNoSpread needs.now
        ⊎ ((need : Need) × (needs.now ≡ need ∷ []) × IsSpread need) }
{
    if needs.len() == 1 {
        let Some(need) = needs.get(0) else {
            return false;
        };
        if is_spread(need) {
            return true;
        }
    }
    have_none(needs)
}

/// Whether the need holds no spread.
#[cycle(seeking)]
fn has_none(need: &Need) -> bool
    ensures { IsTrue result → HasNoSpread need.now }
{
    match need {
        Need::Vert { needs, .. } => have_none(needs),
        Need::Pool { .. } => true,
        Need::Spread { .. } => false,
    }
}

/// Whether no need of the list does.
#[cycle(seeking)]
fn have_none(needs: &List<Need>) -> bool
    ensures { IsTrue result → AllByRecursion HasNoSpread needs.now }
{
    for need in needs.items() {
        if !has_none(need) {
            return false;
        }
    }
    true
}
