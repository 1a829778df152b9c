//! The reply that a verdict gives.
ghost use Rattle.std.specs.Prelude.{◌≡◌, ℕ, ◌+◌, ◌<◌, length, List};
ghost use Rattle.flux_defs.specs.declared.journal.Reply.TheVariants as reply;
ghost use Rattle.flux_defs.specs.Graph.{ResourceGraph};
ghost use Rattle.flux_defs.specs.Asks.{CountsWithin};
ghost use Rattle.flux_defs.specs.Scheduler.{State, Where, accepted_reply};
ghost use Rattle.flux_defs.specs.Verdicts.{job_of};
ghost use Rattle.prune_filters.specs.declared.rules.Rule.{Rule};
ghost use Rattle.sched_core.specs.Courses.{setting_of};
ghost use Rattle.sched_core.specs.Answered.{IsOfJob, Answers};
ghost use Rattle.overtaken_check.specs.Costs.{claims_found};
ghost use Rattle.sched_core.specs.Costs.{AddsAtMost};

use earliest_search::window_at;
use flux_defs::{Ask, Claim, Job, List, Reply, Verdict};

/// How far a scheduler has come: the present moment, and how many claims the accepted jobs had; and its bounds of both.
#[derive(Clone, Copy)]
pub(crate) struct Reached {
    pub moment: u64,
    pub horizon: u64,
    pub claim_count: u64,
    pub claim_limit: u64,
}

/// The job that was found is accepted, unless there is no room for its claims.
fn accept(reached: Reached, id: u64, ask: &Ask, start: u64, claims: List<Claim>) -> Reply
    requires { CountsWithin reached.horizon ask.now start }
    ensures answer { (graph : ResourceGraph) (rules : List Rule) →
        Where (reached.claim_limit < reached.claim_count + length claims) reply.Full
        (λ r. r ≡ accepted_reply reached.moment (job_of (setting_of graph rules reached.horizon reached.claim_limit)
        id ask.now start claims)) result }
    ensures few { AddsAtMost (length claims) result }
{
    if u128::from(reached.claim_count) + claims.len() as u128 > u128::from(reached.claim_limit) {
        return Reply::Full;
    }
    let window = window_at(reached.horizon, ask, start);
    let job = Job {
        id,
        start,
        end: window.to,
        claims,
    };
    if start == reached.moment {
        Reply::Allocated(job)
    } else {
        Reply::Reserved(job)
    }
}

/// The reply to an allocate or a reserve by what was found now; `none` is the reply where nothing fits.
pub(crate) fn give(reached: Reached, id: u64, ask: &Ask, none: Reply, verdict: Verdict) -> Reply
    requires { IsOfJob reached.horizon ask.now verdict }
    ensures answer { (graph : ResourceGraph) (rules : List Rule) (s : State) → s.moment ≡ reached.moment →
        s.claim_count ≡ reached.claim_count →
        Answers (setting_of graph rules reached.horizon reached.claim_limit) s id ask.now none verdict result }
    ensures few { AddsAtMost 0 none → AddsAtMost (length (claims_found verdict)) result }
{
    match verdict {
        Verdict::Found { start, claims } => accept(reached, id, ask, start, claims),
        Verdict::NoFit => none,
        Verdict::Unsat => Reply::Unsatisfiable,
        Verdict::Long => Reply::TooLong,
        Verdict::Known => Reply::Exists,
        Verdict::Sat => unreachable!(),
    }
}
