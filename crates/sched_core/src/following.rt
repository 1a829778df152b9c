//! The book after an entry.
ghost use Rattle.std.specs.Prelude.{◌≡◌, ℕ, ◌+◌, ◌≤◌, ◌∷◌, ◌++◌, [], List, length, IsSome, IfOk};
ghost use Rattle.flux_defs.specs.declared.journal.Command.TheVariants as command;
ghost use Rattle.flux_defs.specs.declared.journal.Entry.{Entry};
ghost use Rattle.flux_defs.specs.declared.journal.Reply.TheVariants as reply;
ghost use Rattle.flux_defs.specs.Scheduler.{job_with};
ghost use Rattle.flux_defs.specs.Overtaken.{HasAccepted};
ghost use Rattle.book_state.specs.Books.{HaveOneSetting, MayAdd, change_cost_of};
ghost use Rattle.sched_core.specs.Courses.{left_by, IsBookOf};
ghost use Rattle.sched_core.specs.Answered.{ChangesNothing, MayFollow};
ghost use Rattle.sched_core.specs.Costs.{AddsAtMost};

use crate::settling::live_job;
use book_state::BookState;
use flux_defs::{Command, Entry, Job, Reply, Steps};
use snapshot_store::Pages;
use std::alloc::{AllocError, Global};
use std::sync::ledger::Ledger;

/// The book with a job that was accepted.
fn after_accepted<L: Ledger>(
    alloc: Global,
    entries: &Pages<Entry>,
    book: BookState,
    job: &Job,
    steps: &mut Steps<L>,
) -> Result<BookState, AllocError>
    requires book { IsBookOf entries.now book }
    requires may { MayAdd book job.now }
    ensures setting { IfOk result (HaveOneSetting book) }
    ensures book { IfOk result (λ next. (e : Entry) → HasAccepted e job.now → IsBookOf (entries.now ++ e ∷ []) next) }
    ensures work { steps.new ≤ steps.old + change_cost_of book (length job.now.claims) }
{
    let next = book.into_added(alloc, job, entries.len(), steps)?;
    Ok(next)
}

/// The book without the job that was cancelled.
fn after_cancelled<L: Ledger>(
    alloc: Global,
    entries: &Pages<Entry>,
    book: BookState,
    id: u64,
    steps: &mut Steps<L>,
) -> Result<BookState, AllocError>
    requires book { IsBookOf entries.now book }
    requires there { IsSome (job_with id (left_by entries.now).jobs) }
    ensures setting { IfOk result (HaveOneSetting book) }
    ensures book { IfOk result (λ next. (e : Entry) →
        e.command ≡ command.Cancel id → e.reply ≡ reply.Cancelled → IsBookOf (entries.now ++ e ∷ []) next) }
{
    match live_job(entries, &book, id, steps) {
        None => unreachable!(),
        Some(job) => {
            let next = book.into_removed(alloc, job, steps)?;
            Ok(next)
        }
    }
}

/// The book at another moment.
fn after_moved(book: BookState, to: u64) -> BookState
    ensures setting { HaveOneSetting book result }
    ensures book { (journal : List Entry) (e : Entry) →
        IsBookOf journal book → e.reply ≡ reply.Now to → IsBookOf (journal ++ e ∷ []) result }
{
    book.into_advanced(to)
}

/// The same book.
fn unchanged(book: BookState) -> BookState
    ensures setting { HaveOneSetting book result }
    ensures book { (journal : List Entry) (e : Entry) →
        IsBookOf journal book → ChangesNothing e.reply → IsBookOf (journal ++ e ∷ []) result }
{
    book
}

/// The book after one entry more with this command and this reply.
pub(crate) fn follow<L: Ledger>(
    alloc: Global,
    entries: &Pages<Entry>,
    book: BookState,
    command: &Command,
    reply: &Reply,
    steps: &mut Steps<L>,
) -> Result<BookState, AllocError>
    requires book { IsBookOf entries.now book }
    requires may { MayFollow book (left_by entries.now) command.now reply.now }
    ensures setting { IfOk result (HaveOneSetting book) }
    ensures book { IfOk result
        (λ next. (e : Entry) → e.command ≡ command.now → e.reply ≡ reply.now → IsBookOf (entries.now ++ e ∷ []) next) }
    ensures work { (most : ℕ) → AddsAtMost most reply.now → steps.new ≤ steps.old + change_cost_of book most }
{
    match reply {
        Reply::Allocated(job) => after_accepted(alloc, entries, book, job, steps),
        Reply::Reserved(job) => after_accepted(alloc, entries, book, job, steps),
        Reply::Cancelled => match command {
            Command::Cancel { job } => after_cancelled(alloc, entries, book, *job, steps),
            _ => unreachable!(),
        },
        Reply::Now { at } => Ok(after_moved(book, *at)),
        _ => Ok(unchanged(book)),
    }
}
