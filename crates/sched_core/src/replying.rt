//! The scheduler's reply to a command.
ghost use Rattle.std.specs.Prelude.{◌≡◌, IfOk};
ghost use Rattle.flux_defs.specs.declared.journal.Command.TheVariants as command;
ghost use Rattle.flux_defs.specs.Needs.{IsProperAsk};
ghost use Rattle.flux_defs.specs.Scheduler.{State, IsProper, Replies};
ghost use Rattle.sched_core.specs.declared.held.Kept.{Kept};
ghost use Rattle.sched_core.specs.Courses.{left_by, journal_in, vertices_at, setting_in, IsCore};
ghost use Rattle.sched_core.specs.Answered.{command_of, none_at};
ghost use Rattle.sched_core.specs.Costs.{AddsAtMost};

use crate::finding::{Starts, is_satisfiable};
use crate::giving::{Reached, give};
use crate::held::{Kept, Site};
use crate::searching::job_verdict;
use crate::settling::{advance, cancel, info};
use flux_defs::{Ask, Command, Reply, Steps};
use std::alloc::AllocError;
use std::sync::ledger::Ledger;

/// How far the scheduler has come at a moment.
pub(crate) fn reached(site: &Site, kept: &Kept, moment: u64) -> Reached
    requires { IsCore site.now kept.now }
    ensures moment { result.moment ≡ moment }
    ensures claim_count { result.claim_count ≡ (left_by (journal_in kept.now)).claim_count }
    ensures horizon { result.horizon ≡ site.now.horizon }
    ensures claim_limit { result.claim_limit ≡ site.now.claim_limit }
{
    Reached {
        moment,
        horizon: site.horizon,
        claim_count: kept.claim_count,
        claim_limit: site.claim_limit,
    }
}

/// The reply where nothing fits at the starts.
pub(crate) fn none_at(starts: Starts) -> Reply
    ensures answer { result ≡ none_at starts }
    ensures few { AddsAtMost 0 result }
{
    match starts {
        Starts::Now => Reply::Busy,
        Starts::Earliest => Reply::NoStart,
    }
}

/// The reply to an allocate or a reserve.
fn job_reply<L: Ledger>(
    site: &Site,
    kept: &Kept,
    id: u64,
    ask: &Ask,
    starts: Starts,
    steps: &mut Steps<L>,
) -> Result<Reply, AllocError>
    requires core { IsCore site.now kept.now }
    requires proper { IsProperAsk (vertices_at site.now) ask.now }
    ensures { IfOk result (Replies (setting_in site.now kept.now) (left_by (journal_in kept.now))
        (command_of starts id ask.now)) }
{
    let verdict = job_verdict(site, kept, id, ask, starts, steps)?;
    Ok(give(
        reached(site, kept, kept.book.now()),
        id,
        ask,
        none_at(starts),
        verdict,
    ))
}

/// The reply to a satisfy.
fn satisfy<L: Ledger>(site: &Site, ask: &Ask, steps: &mut Steps<L>) -> Reply
    requires proper { IsProperAsk (vertices_at site.now) ask.now }
    ensures { (kept : Kept) (s : State) → Replies (setting_in site.now kept) s (command.Satisfy ask.now) result }
{
    if is_satisfiable(&site.graph, ask, steps) {
        Reply::Satisfiable
    } else {
        Reply::Unsatisfiable
    }
}

/// The scheduler's reply to a command. The only error is want of memory.
pub(crate) fn reply<L: Ledger>(
    site: &Site,
    kept: &Kept,
    command: &Command,
    steps: &mut Steps<L>,
) -> Result<Reply, AllocError>
    requires core { IsCore site.now kept.now }
    requires proper { IsProper (vertices_at site.now) command.now }
    ensures { IfOk result (Replies (setting_in site.now kept.now) (left_by (journal_in kept.now)) command.now) }
{
    match command {
        Command::Allocate { job, ask } => job_reply(site, kept, *job, ask, Starts::Now, steps),
        Command::Reserve { job, ask } => job_reply(site, kept, *job, ask, Starts::Earliest, steps),
        Command::Satisfy { ask } => Ok(satisfy(site, ask, steps)),
        Command::Cancel { job } => Ok(cancel(kept, *job, steps)),
        Command::Info { job } => Ok(info(kept, *job, steps)),
        Command::Advance { to } => Ok(advance(site, kept, *to)),
        Command::Invalid { .. } => Ok(Reply::Invalid),
    }
}
