//! Which jobs of a list hold, touch or begin.
ghost use Rattle.std.specs.Prelude.{◌≡◌, ℕ, ◌<◌, ◌&&◌, MatchOption, IfSome};
ghost use Rattle.std.specs.List.{list_any};
ghost use Rattle.flux_defs.specs.Jobs.{holds_over, is_on_or_below, IsPoint, IsNextPoint};
ghost use Rattle.plain_jobs.specs.Spans.{overlaps, some_overlap, lesser_of};
ghost use Rattle.resource_graph.specs.NamedGraph.{vertices_of};

use crate::containment::is_at_or_below;
use flux_defs::{Claim, Job, Window};
use resource_graph::Graph;

fn holds_over(graph: &Graph, vertex: u32, claim: &Claim) -> bool
    ensures { result ≡ holds_over (vertices_of graph.now) vertex claim.now }
{
    match claim {
        Claim::Hold { vertex: held } => is_at_or_below(graph, vertex, *held),
        Claim::Take { .. } | Claim::Pass { .. } => false,
    }
}

fn is_on_or_below(graph: &Graph, vertex: u32, claim: &Claim) -> bool
    ensures { result ≡ is_on_or_below (vertices_of graph.now) vertex claim.now }
{
    match claim {
        Claim::Hold { vertex: on } => is_at_or_below(graph, *on, vertex),
        Claim::Take { vertex: on, .. } => is_at_or_below(graph, *on, vertex),
        Claim::Pass { vertex: on } => is_at_or_below(graph, *on, vertex),
    }
}

fn overlaps(window: Window, job: &Job) -> bool
    ensures { result ≡ overlaps window job.now }
{
    job.start < window.to && (window.from < job.end && job.start < job.end)
}

fn has_hold(graph: &Graph, vertex: u32, claims: &[Claim]) -> bool
    ensures { result ≡ list_any (holds_over (vertices_of graph.now) vertex) claims.now }
{
    claims.iter().any(|claim| holds_over(graph, vertex, claim))
}

fn has_claim(graph: &Graph, vertex: u32, claims: &[Claim]) -> bool
    ensures { result ≡ list_any (is_on_or_below (vertices_of graph.now) vertex) claims.now }
{
    claims
        .iter()
        .any(|claim| is_on_or_below(graph, vertex, claim))
}

fn closes(graph: &Graph, window: Window, vertex: u32, job: &Job) -> bool
    ensures { result
        ≡ (overlaps window job.now && list_any (holds_over (vertices_of graph.now) vertex) job.now.claims) }
{
    overlaps(window, job) && has_hold(graph, vertex, job.claims.items())
}

fn touches(graph: &Graph, window: Window, vertex: u32, job: &Job) -> bool
    ensures { result
        ≡ (overlaps window job.now && list_any (is_on_or_below (vertices_of graph.now) vertex) job.now.claims) }
{
    overlaps(window, job) && has_claim(graph, vertex, job.claims.items())
}

/// Whether a job that overlaps the window holds the vertex or one above it.
pub fn is_closed(graph: &Graph, jobs: &[Job], window: Window, vertex: u32) -> bool
    ensures { result ≡ some_overlap jobs.now window (holds_over (vertices_of graph.now) vertex) }
{
    jobs.iter().any(|job| closes(graph, window, vertex, job))
}

/// Whether a job that overlaps the window has a claim on the vertex or below it.
pub fn is_touched(graph: &Graph, jobs: &[Job], window: Window, vertex: u32) -> bool
    ensures { result ≡ some_overlap jobs.now window (is_on_or_below (vertices_of graph.now) vertex) }
{
    jobs.iter().any(|job| touches(graph, window, vertex, job))
}

/// The lesser of a moment found before and this one, where it is later than `after`.
fn lesser(best: Option<u64>, after: u64, point: u64) -> Option<u64>
    ensures { result ≡ lesser_of best after point }
{
    if point <= after {
        return best;
    }
    match best {
        None => Some(point),
        Some(p) => Some(p.min(point)),
    }
}

/// The least start or end of a job that is later than the moment.
pub fn next_point(jobs: &[Job], after: u64) -> Option<u64>
    ensures later { IfSome result (λ p. after < p) }
    ensures answer { MatchOption result ((p : ℕ) → after < p → IsPoint jobs.now p → ⊥) (IsNextPoint jobs.now after) }
{
    let mut best = None;
    for job in jobs {
        best = lesser(lesser(best, after, job.start), after, job.end);
    }
    best
}
