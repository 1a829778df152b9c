//! Whether a job may be added to a book: what an addition asks for, found out beforehand.
ghost use Rattle.std.specs.Prelude.{◌≡◌, ◌≢◌, ℕ, ◌<◌, IsTrue, List, length, All, MatchOption};
ghost use Rattle.std.specs.List.{AllByRecursion};
ghost use Rattle.flux_defs.specs.Graph.{is_pool};
ghost use Rattle.flux_defs.specs.Jobs.{vertex_of, holds_over};
ghost use Rattle.flux_defs.specs.Sound.{AreSeparate, AreAllSeparate};
ghost use Rattle.book_laws.specs.Amounts.{TakesFromPool};
ghost use Rattle.flux_defs.specs.declared.claims.Job.{Job};
ghost use Rattle.flux_defs.specs.Present.{up_with};
ghost use Rattle.flux_defs.specs.Closed.{no_bars};
ghost use Rattle.flux_defs.specs.Available.{IsAvailable};
ghost use Rattle.candidate_check.specs.Taken.{IsFirstGone};
ghost use Rattle.book_state.specs.Books.{graph_of, vertices_of, horizon_of, StandsFor, MayAdd};

use book_state::BookState;
use candidate_check::still_free;
use flux_defs::{Claim, Job, List, Steps, Window};
use plain_jobs::containment::is_at_or_below;
use resource_graph::Graph;
use std::sync::ledger::Ledger;

/// Whether the vertex is of a pool type.
fn is_pool_vertex(graph: &Graph, vertex: u32) -> bool
    ensures { result ≡ is_pool graph.now.resources.vertices vertex }
{
    match graph.vertices().get(vertex as usize) {
        Some(found) => return graph.is_pool(found.kind),
        None => return false,
    }
}

/// Whether a take is from a pool.
fn takes_from_pool(graph: &Graph, claim: &Claim) -> bool
    ensures { IsTrue result → TakesFromPool graph.now.resources.vertices claim.now }
{
    match claim {
        Claim::Take { vertex, .. } => is_pool_vertex(graph, *vertex),
        Claim::Hold { .. } | Claim::Pass { .. } => true,
    }
}

/// Whether the first claim doesn't hold the other's vertex or one above it.
fn leaves_open(graph: &Graph, claim: &Claim, other: u32) -> bool
    ensures { IsTrue result → IsTrue (holds_over graph.now.resources.vertices other claim.now) → ⊥ }
{
    match claim {
        Claim::Hold { vertex } => !is_at_or_below(graph, other, *vertex),
        Claim::Take { .. } | Claim::Pass { .. } => true,
    }
}

/// Whether the two claims of one job are separate.
fn are_separate(graph: &Graph, claim: &Claim, other: &Claim) -> bool
    ensures { IsTrue result → AreSeparate graph.now.resources.vertices claim.now other.now }
{
    if claim.vertex() == other.vertex() {
        return false;
    }
    if !leaves_open(graph, claim, other.vertex()) {
        return false;
    }
    leaves_open(graph, other, claim.vertex())
}

/// Whether the claim is separate from each of the others.
fn is_separate(graph: &Graph, claim: &Claim, others: &[Claim]) -> bool
    ensures { IsTrue result → AllByRecursion (AreSeparate graph.now.resources.vertices claim.now) others.now }
{
    match others {
        [] => return true,
        [first, rest @ ..] => {
            if !are_separate(graph, claim, first) {
                return false;
            }
            return is_separate(graph, claim, rest);
        }
    }
}

/// Whether claims are on vertices of the graph, takes among them from pools, and any two separate.
fn fit_together(graph: &Graph, claims: &[Claim]) -> bool
    ensures on_vertices { IsTrue result →
        AllByRecursion (λ c. vertex_of c < length graph.now.resources.vertices) claims.now }
    ensures from_pools { IsTrue result → AllByRecursion (TakesFromPool graph.now.resources.vertices) claims.now }
    ensures separate { IsTrue result → AreAllSeparate graph.now.resources.vertices claims.now }
{
    match claims {
        [] => return true,
        [first, rest @ ..] => {
            if first.vertex() >= graph.len() {
                return false;
            }
            if !takes_from_pool(graph, first) {
                return false;
            }
            if !is_separate(graph, first, rest) {
                return false;
            }
            return fit_together(graph, rest);
        }
    }
}

/// The first claim that isn't available over the window beside the jobs of the book; none exactly where all are.
fn first_gone<L: Ledger>(
    book: &BookState,
    claims: &List<Claim>,
    window: Window,
    steps: &mut Steps<L>,
) -> Option<usize>
    requires vertices { All (λ c. vertex_of c < length (vertices_of book.now)) claims.now }
    requires window { window.from < window.to }
    ensures { (jobs : List Job) → StandsFor book.now jobs →
        MatchOption result (All (IsAvailable (no_bars (vertices_of book.now) (up_with jobs)) window) claims.now)
        (IsFirstGone (vertices_of book.now) (up_with jobs) window claims.now) }
{
    still_free(book, claims, window, steps)
}

/// Whether the job may be added to a book over the graph with this horizon.
pub fn may_add<L: Ledger>(
    book: &BookState,
    graph: &Graph,
    horizon: u64,
    job: &Job,
    steps: &mut Steps<L>,
) -> bool
    requires graph { graph_of book.now ≡ graph.now }
    requires horizon { horizon_of book.now ≡ horizon }
    ensures { IsTrue result → MayAdd book.now job.now }
{
    if job.start >= job.end || job.end > horizon {
        return false;
    }
    if !fit_together(graph, job.claims.items()) {
        return false;
    }
    if book.find(job.id, steps).is_some() {
        return false;
    }
    let window = Window {
        from: job.start,
        to: job.end,
    };
    first_gone(book, &job.claims, window, steps).is_none()
}
