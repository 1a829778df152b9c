//! The verdict of a search.
ghost use Rattle.std.specs.Prelude.{◌≡◌, ◌+◌, ◌*◌, ◌≤◌, ◌↔◌, IsTrue, List, IfOk};
ghost use Rattle.std.specs.FinMap.{len};
ghost use Rattle.flux_defs.specs.Needs.{IsProperAsk};
ghost use Rattle.flux_defs.specs.Scheduler.{State, IsProper};
ghost use Rattle.flux_defs.specs.Verdicts.{Finds, FindsJob, IsSearchable};
ghost use Rattle.flux_defs.specs.declared.journal.Command.TheVariants as command;
ghost use Rattle.sched_core.specs.declared.held.Kept.{Kept};
ghost use Rattle.sched_core.specs.Courses.{left_by, journal_in, vertices_at, setting_in, IsCore};
ghost use Rattle.sched_core.specs.Answered.{FindsAt, command_of};
ghost use Rattle.flux_defs.specs.Digits.{dig};
ghost use Rattle.flux_defs.specs.declared.claims.Job.{Job};
ghost use Rattle.flux_defs.specs.Present.{InEach, IsUpWith};
ghost use Rattle.book_state.specs.Books.{StandsFor, IsTotalKept, cost_of, rows_of, moment_of};
ghost use Rattle.sched_core.specs.Courses.{graph_at};
ghost use Rattle.sched_core.specs.SearchCosts.{BookTakes, CommandTakes, last_in, satisfy_most};

use crate::finding::{Starts, find_job, is_satisfiable};
use crate::held::{Kept, Site};
use flux_defs::{Ask, Command, Steps, Verdict};
use std::alloc::AllocError;
use std::sync::ledger::Ledger;

/// Whether a command is one that is searched for: an allocate, a reserve or a satisfy.
pub fn is_searched_for(command: &Command) -> bool
    ensures { IsTrue result ↔ IsSearchable command.now }
{
    matches!(
        command,
        Command::Allocate { .. } | Command::Reserve { .. } | Command::Satisfy { .. }
    )
}

/// What is found of an ask for a job.
pub(crate) fn job_verdict<L: Ledger>(
    site: &Site,
    kept: &Kept,
    id: u64,
    ask: &Ask,
    starts: Starts,
    steps: &mut Steps<L>,
) -> Result<Verdict, AllocError>
    requires core { IsCore site.now kept.now }
    requires proper { IsProperAsk (vertices_at site.now) ask.now }
    ensures found { IfOk result (Finds (setting_in site.now kept.now) (left_by (journal_in kept.now))
        (command_of starts id ask.now)) }
    ensures work { BookTakes (graph_at site.now).resources site.now.horizon kept.now.book (moment_of kept.now.book)
        starts ask.now result
        (steps.old + 16 * dig (len (rows_of kept.now.book) + 2) + satisfy_most (vertices_at site.now) ask.now)
        steps.new }
{
    find_job(
        site.alloc,
        &site.graph,
        site.horizon,
        &kept.book,
        id,
        ask,
        starts,
        steps,
    )
}

/// What is found of a satisfy.
fn satisfy_verdict<L: Ledger>(site: &Site, ask: &Ask, steps: &mut Steps<L>) -> Verdict
    requires proper { IsProperAsk (vertices_at site.now) ask.now }
    ensures found { (kept : Kept) (s : State) → Finds (setting_in site.now kept) s (command.Satisfy ask.now) result }
    ensures work { steps.new ≤ steps.old + satisfy_most (vertices_at site.now) ask.now }
{
    if is_satisfiable(&site.graph, ask, steps) {
        Verdict::Sat
    } else {
        Verdict::Unsat
    }
}

/// What a search finds of the command. The only error is want of memory.
pub(crate) fn find<L: Ledger>(
    site: &Site,
    kept: &Kept,
    command: &Command,
    steps: &mut Steps<L>,
) -> Result<Verdict, AllocError>
    requires core { IsCore site.now kept.now }
    requires proper { IsProper (vertices_at site.now) command.now }
    requires searchable { IsSearchable command.now }
    ensures found { IfOk result (Finds (setting_in site.now kept.now) (left_by (journal_in kept.now)) command.now) }
    ensures work { InEach (IsUpWith (StandsFor kept.now.book)) (λ present.
        CommandTakes (vertices_at site.now) present (IsTotalKept kept.now.book) (cost_of kept.now.book) site.now.horizon
        (moment_of kept.now.book) (16 * dig (len (rows_of kept.now.book) + 2)) command.now
        (last_in site.now.horizon result) steps.old steps.new) }
{
    match command {
        Command::Allocate { job, ask } => job_verdict(site, kept, *job, ask, Starts::Now, steps),
        Command::Reserve { job, ask } => job_verdict(
            site,
            kept,
            *job,
            ask,
            Starts::Earliest,
            steps,
        ),
        Command::Satisfy { ask } => Ok(satisfy_verdict(site, ask, steps)),
        _ => unreachable!(),
    }
}
