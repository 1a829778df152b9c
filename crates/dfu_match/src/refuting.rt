//! Whether what is known of an own need tells that no claims fit, and until when.
ghost use Rattle.std.specs.Prelude.{◌≡◌, ℕ, ◌+◌, ◌*◌, ◌<◌, ◌≤◌, ◌∷◌, ◌⊎◌, [], length, List, IfSome, Some};
ghost use Rattle.std.specs.Prelude.{None, slice_get};
ghost use Rattle.flux_defs.specs.declared.vertices.Vertex.{Vertex};
ghost use Rattle.flux_defs.specs.declared.claims.Window.{Window};
ghost use Rattle.flux_defs.specs.declared.requests.Need.{Need};
ghost use Rattle.flux_defs.specs.Graph.{Everywhere};
ghost use Rattle.flux_defs.specs.Later.{ReachesOver};
ghost use Rattle.flux_defs.specs.Needs.{amount_of, AreValidNeeds};
ghost use Rattle.flux_defs.specs.Present.{InEach};
ghost use Rattle.match_laws.specs.Offers.{SomeFits};
ghost use Rattle.dfu_match.specs.Searches.{open_to};
ghost use Rattle.dfu_match.specs.Rows.{bound_at, served_most, whole_of, Knows};
ghost use Rattle.resource_graph.specs.NamedGraph.{vertices_of};

use crate::knowing::{Known, Row};
use crate::search::Search;
use crate::topmost::whole_of;
use flux_defs::{FreeView, Need};

/// How much a row leaves its vertex to serve at most over windows that begin at this second, where `whole` is all that
/// is ever asked of one.
fn bound_at(need: &Need, from: u64, row: &Row) -> u64
    ensures { result ≡ bound_at need.now from row.now }
{
    if from <= row.moment {
        row.most
    } else {
        whole_of(need)
    }
}

/// Until when the rows leave less than the need's amount, windows that begin from this second on. None where they leave
/// that much at this second.
fn refuted(need: &Need, rows: &[Row], from: u64) -> Option<u64>
    requires { 1 ≤ amount_of need.now }
    ensures { IfSome result (λ until. (from ≤ until) × (served_most need.now until rows.now < amount_of need.now)) }
{
    let whole = whole_of(need);
    let mut lacking = need.amount();
    let mut last = u64::MAX;
    for row in rows {
        let bound = bound_at(need, from, row);
        if lacking <= bound {
            return None;
        }
        lacking -= bound;
        if bound < whole {
            last = last.min(row.moment);
        }
    }
    Some(last)
}

/// Until when what is known tells that no claims fit: over all windows that reach over what is left of this one from
/// that moment on. None where it doesn't tell so of this window.
pub(crate) fn refuted_known<F: FreeView>(s: &Search<F>, known: &Known) -> Option<u64>
    requires valid { AreValidNeeds (vertices_of s.now.graph.now) s.now.needs.now }
    requires known { Knows (vertices_of s.now.graph.now) (F.stands_for s.now.view.now) s.now.barred.now
        s.now.needs.now s.now.window known.now }
    ensures later { IfSome result (λ until. s.now.window.from ≤ until) }
    ensures none { InEach (F.stands_for s.now.view.now) (λ present. (w : Window) →
        IfSome result (λ until. ReachesOver s.now.window until w → SomeFits (vertices_of s.now.graph.now)
        (open_to (vertices_of s.now.graph.now) present s.now.barred.now w) Everywhere s.now.needs.now 1 → ⊥)) }
{
    s.graph.is_valid();
    if !known.reaches(s.graph.len()) {
        return None;
    }
    let Some(need) = s.needs.get(known.own()) else {
        return None;
    };
    refuted(need, known.rows(), s.window.from)
}
