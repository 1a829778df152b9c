//! Replies to the commands that need no search.
ghost use Rattle.std.specs.Prelude.{◌≡◌, ℕ, ◌<◌, List, Some};
ghost use Rattle.std.specs.Option.{option_copied};
ghost use Rattle.flux_defs.specs.declared.claims.Job.{Job};
ghost use Rattle.flux_defs.specs.declared.journal.Entry.{Entry};
ghost use Rattle.flux_defs.specs.declared.journal.Command.TheVariants as command;
ghost use Rattle.flux_defs.specs.Scheduler.{Setting, Replies, job_with, phase_at, info_at};
ghost use Rattle.flux_defs.specs.Overtaken.{HasEntry, HasAccepted};
ghost use Rattle.sched_core.specs.Courses.{left_by, journal_in, setting_in, IsBookOf};

use crate::held::{Kept, Site};
use book_state::BookState;
use flux_defs::{Entry, Job, Phase, Reply, Steps};
use snapshot_store::Pages;
use std::sync::ledger::Ledger;

/// The job that the entry accepted, if it accepted one.
fn accepted_job(entry: &Entry) -> Option<&Job>
    ensures { (job : Job) → HasAccepted entry.now job → option_copied result ≡ Some job }
{
    match &entry.reply {
        Reply::Allocated(job) => Some(job),
        Reply::Reserved(job) => Some(job),
        _ => None,
    }
}

/// The job that the entry at a place accepted.
fn job_at<'a, L: Ledger>(
    entries: &'a Pages<Entry>,
    at: u64,
    steps: &mut Steps<L>,
) -> Option<&'a Job>
    ensures { (entry : Entry) (job : Job) →
        HasEntry entries.now at entry → HasAccepted entry job → option_copied result ≡ Some job }
{
    match entries.get(at, steps) {
        None => None,
        Some(entry) => accepted_job(entry),
    }
}

/// The job of this id, if it was accepted and not cancelled.
pub(crate) fn live_job<'a, L: Ledger>(
    entries: &'a Pages<Entry>,
    book: &BookState,
    id: u64,
    steps: &mut Steps<L>,
) -> Option<&'a Job>
    requires { IsBookOf entries.now book.now }
    ensures { option_copied result ≡ job_with id (left_by entries.now).jobs }
{
    match book.find(id, steps) {
        None => None,
        Some(row) => {
            if row.live {
                job_at(entries, row.at, steps)
            } else {
                None
            }
        }
    }
}

fn phase(moment: u64, job: &Job) -> Phase
    ensures { result ≡ phase_at moment job.now }
{
    if moment < job.start {
        Phase::Planned
    } else if moment < job.end {
        Phase::Running
    } else {
        Phase::Ended
    }
}

/// What is told of a job.
fn info_at(moment: u64, job: &Job) -> Reply
    ensures { result ≡ info_at moment job.now }
{
    Reply::Info {
        phase: phase(moment, job),
        start: job.start,
        end: job.end,
    }
}

/// The reply to a cancel.
pub(crate) fn cancel<L: Ledger>(kept: &Kept, id: u64, steps: &mut Steps<L>) -> Reply
    requires { IsBookOf (journal_in kept.now) kept.now.book }
    ensures { (g : Setting) → Replies g (left_by (journal_in kept.now)) (command.Cancel id) result }
{
    match live_job(&kept.journal, &kept.book, id, steps) {
        None => Reply::Absent,
        Some(_) => Reply::Cancelled,
    }
}

/// The reply to an info.
pub(crate) fn info<L: Ledger>(kept: &Kept, id: u64, steps: &mut Steps<L>) -> Reply
    requires { IsBookOf (journal_in kept.now) kept.now.book }
    ensures { (g : Setting) → Replies g (left_by (journal_in kept.now)) (command.Info id) result }
{
    match live_job(&kept.journal, &kept.book, id, steps) {
        None => Reply::Absent,
        Some(job) => info_at(kept.book.now(), job),
    }
}

/// The reply to an advance.
pub(crate) fn advance(site: &Site, kept: &Kept, to: u64) -> Reply
    requires { IsBookOf (journal_in kept.now) kept.now.book }
    ensures { Replies (setting_in site.now kept.now) (left_by (journal_in kept.now)) (command.Advance to) result }
{
    if to < kept.book.now() {
        return Reply::Backwards;
    }
    if site.horizon < to {
        return Reply::Beyond;
    }
    Reply::Now { at: to }
}
