//! Needs of which each vertex serves exactly 1, which are counted without a look at any vertex.
ghost use Rattle.std.specs.Prelude.{◌≡◌, ℕ, ◌≤◌, length, List, IsTrue, Some};
ghost use Rattle.flux_defs.specs.declared.vertices.Vertex.{Vertex};
ghost use Rattle.flux_defs.specs.declared.claims.Claim.{Claim};
ghost use Rattle.flux_defs.specs.Present.{InEach};
ghost use Rattle.match_laws.specs.Offers.{IsGreatest, SomeGroup};
ghost use Rattle.dfu_match.specs.Searches.{open_to, scope_of, IsScope, IsKindOfNeed};
ghost use Rattle.dfu_match.specs.Walks.{ServesOneEach};
ghost use Rattle.resource_graph.specs.NamedGraph.{vertices_of};

use crate::scopes::span_of;
use crate::search::Search;
use flux_defs::{FreeView, Need};

/// Whether it is known that each vertex of the need serves exactly 1: nothing is asked within it, no node is barred,
/// and the view knows that there are no jobs and no down vertices.
pub(crate) fn serves_one_each<F: FreeView>(s: &Search<F>, need: &Need) -> bool
    ensures { IsTrue result → InEach (F.stands_for s.now.view.now)
        (λ present. let vs : List Vertex = vertices_of s.now.graph.now in
        ServesOneEach vs (open_to vs present s.now.barred.now s.now.window) need.now) }
{
    let Need::Vert { needs, .. } = need else {
        return false;
    };
    needs.is_empty() && s.barred.is_empty() && s.view.is_bare()
}

/// As much of the need as the scope can serve, at most so much, where each vertex of the need serves exactly 1: how
/// many vertices of its kind there are.
pub(crate) fn reach_singles<F: FreeView>(
    s: &Search<F>,
    need: &Need,
    kind: u32,
    scope: Option<u32>,
    most: u128,
) -> u128
    requires scope { IsScope (vertices_of s.now.graph.now) scope }
    requires of_kind { IsKindOfNeed (vertices_of s.now.graph.now) need.now (Some kind) }
    requires singles { InEach (F.stands_for s.now.view.now)
        (λ present. let vs : List Vertex = vertices_of s.now.graph.now in
        ServesOneEach vs (open_to vs present s.now.barred.now s.now.window) need.now) }
    ensures within { result ≤ most }
    ensures greatest { InEach (F.stands_for s.now.view.now)
        (λ present. let vs : List Vertex = vertices_of s.now.graph.now in
        let ok : Claim → Type 0 = open_to vs present s.now.barred.now s.now.window in
        IsGreatest (SomeGroup vs ok (scope_of scope) need.now) most result) }
{
    let span = span_of(s.graph, scope);
    let few = most.min(u128::from(u32::MAX)) as u32;
    u128::from(s.graph.count_of_kind(kind, span.from, span.to, few))
}
