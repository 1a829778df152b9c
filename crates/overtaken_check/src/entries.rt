//! What one entry did.
ghost use Rattle.std.specs.Prelude.{◌≡◌, ℕ, ◌+◌, ◌*◌, ◌<◌, ◌≤◌, ◌↔◌, IsTrue, length, MatchOption};
ghost use Rattle.std.specs.List.{list_any};
ghost use Rattle.flux_defs.specs.declared.journal.Reply.TheVariants as reply;
ghost use Rattle.flux_defs.specs.Digits.{dig};
ghost use Rattle.flux_defs.specs.Histories.{state_at};
ghost use Rattle.flux_defs.specs.Jobs.{holds_over, is_on_or_below};
ghost use Rattle.flux_defs.specs.Overtaken.{Frees, Blocks, conflicts};
ghost use Rattle.overtaken_check.specs.Scans.{IsTooLate, MovesPast, moment_past, DelaysPast, IsInWay, AcceptsInWay};
ghost use Rattle.resource_graph.specs.NamedGraph.{vertices_of};

use flux_defs::{Claim, Entry, Job, Reply, Steps, Window};
use plain_jobs::containment::is_at_or_below;
use resource_graph::Graph;
use snapshot_store::Pages;
use std::sync::ledger::Ledger;

fn is_cancel(entry: &Entry) -> bool
    ensures { IsTrue result ↔ (entry.now.reply ≡ reply.Cancelled) }
{
    matches!(entry.reply, Reply::Cancelled)
}

/// Whether the entry at the place is an accepted cancel.
pub(crate) fn frees_at<L: Ledger>(journal: &Pages<Entry>, at: u64, steps: &mut Steps<L>) -> bool
    ensures answer { IsTrue result ↔ Frees journal.now at }
    ensures work { steps.new ≤ steps.old + 2 * dig (length journal.now + 1) }
{
    match journal.get(at, steps) {
        None => false,
        Some(entry) => is_cancel(entry),
    }
}

/// Whether the moment comes too late: each does, or each past the last one.
fn is_too_late(last: Option<u64>, moment: u64) -> bool
    ensures { IsTrue result ↔ IsTooLate last moment }
{
    match last {
        None => true,
        Some(last) => last < moment,
    }
}

/// The moment after the reply, and none where it moves time on to one that comes too late.
fn moment_after(reply: &Reply, moment: u64, last: Option<u64>) -> Option<u64>
    ensures { MatchOption result (MovesPast last moment reply.now)
        (λ next. (next ≡ moment_past moment reply.now) × (MovesPast last moment reply.now → ⊥)) }
{
    match reply {
        Reply::Now { at } => {
            if moment < *at && is_too_late(last, *at) {
                None
            } else {
                Some(*at)
            }
        }
        _ => Some(moment),
    }
}

/// The moment after the entry at the place, and none where it moved time on to one that comes too late.
pub(crate) fn moment_past<L: Ledger>(
    journal: &Pages<Entry>,
    at: u64,
    moment: u64,
    last: Option<u64>,
    steps: &mut Steps<L>,
) -> Option<u64>
    requires within { at < length journal.now }
    requires moment { moment ≡ (state_at journal.now at).moment }
    ensures answer { MatchOption result (DelaysPast last journal.now at)
        (λ next. (next ≡ (state_at journal.now (at + 1)).moment) × (DelaysPast last journal.now at → ⊥)) }
    ensures work { steps.new ≤ steps.old + 2 * dig (length journal.now + 1) }
{
    match journal.get(at, steps) {
        None => unreachable!(),
        Some(entry) => moment_after(&entry.reply, moment, last),
    }
}

/// Whether the claim holds the vertex or one above it.
fn holds_over(graph: &Graph, vertex: u32, claim: &Claim) -> bool
    ensures { result ≡ holds_over (vertices_of graph.now) vertex claim.now }
{
    match claim {
        Claim::Hold { vertex: held } => is_at_or_below(graph, vertex, *held),
        Claim::Take { .. } | Claim::Pass { .. } => false,
    }
}

/// Whether the other claim is in the way of this one.
fn is_conflict(graph: &Graph, claim: Claim, other: &Claim) -> bool
    ensures { result ≡ conflicts (vertices_of graph.now) claim other.now }
{
    match claim {
        Claim::Hold { vertex } => is_at_or_below(graph, other.vertex(), vertex)
            || holds_over(graph, vertex, other),
        Claim::Pass { vertex } => other.vertex() == vertex || holds_over(graph, vertex, other),
        Claim::Take { vertex, .. } => other.vertex() == vertex || holds_over(graph, vertex, other),
    }
}

fn has_conflict(graph: &Graph, claim: Claim, claims: &[Claim]) -> bool
    ensures { result ≡ list_any (conflicts (vertices_of graph.now) claim) claims.now }
{
    claims.iter().any(|other| is_conflict(graph, claim, other))
}

/// Whether the job overlaps the window and has a claim in the way of this one.
fn is_in_way(graph: &Graph, window: Window, claim: Claim, job: &Job) -> bool
    ensures { IsTrue result ↔ IsInWay (vertices_of graph.now) window claim job.now }
{
    job.start < window.to && window.from < job.end && has_conflict(graph, claim, job.claims.items())
}

/// Whether the entry accepted such a job.
fn accepts_in_way(graph: &Graph, window: Window, claim: Claim, entry: &Entry) -> bool
    ensures { IsTrue result ↔ AcceptsInWay (vertices_of graph.now) window claim entry.now }
{
    match &entry.reply {
        Reply::Allocated(job) => is_in_way(graph, window, claim, job),
        Reply::Reserved(job) => is_in_way(graph, window, claim, job),
        _ => false,
    }
}

/// Whether the entry at the place accepted a job that is in the way of the claim.
pub(crate) fn blocks_at<L: Ledger>(
    graph: &Graph,
    window: Window,
    claim: Claim,
    journal: &Pages<Entry>,
    at: u64,
    steps: &mut Steps<L>,
) -> bool
    ensures answer { IsTrue result ↔ Blocks (vertices_of graph.now) window claim journal.now at }
    ensures work { steps.new ≤ steps.old + 2 * dig (length journal.now + 1) }
{
    match journal.get(at, steps) {
        None => false,
        Some(entry) => accepts_in_way(graph, window, claim, entry),
    }
}
