//! The reply of an older candidate, or why it has none.
ghost use Rattle.std.specs.Prelude.{◌≡◌, ℕ, ◌+◌, ◌*◌, ◌≤◌, length, IfOk, IfErr, MatchOption, Contains};
ghost use Rattle.std.specs.FinMap.{len};
ghost use Rattle.flux_defs.specs.declared.journal.Reply.TheVariants as reply;
ghost use Rattle.flux_defs.specs.Digits.{dig};
ghost use Rattle.flux_defs.specs.Scheduler.{Where, IsProper, Replies};
ghost use Rattle.flux_defs.specs.Histories.{state_at};
ghost use Rattle.flux_defs.specs.Verdicts.{Finds, FindsJob, Yields, YieldsJob};
ghost use Rattle.flux_defs.specs.Overtaken.{IsOvertaken};
ghost use Rattle.commit_laws.specs.CommitLaws.{StillStands};
ghost use Rattle.book_state.specs.Books.{rows_of, cost_of};
ghost use Rattle.overtaken_check.specs.Scans.{cause_of, candidate_of};
ghost use Rattle.overtaken_check.specs.Costs.{scan_most, claims_found};
ghost use Rattle.sched_core.specs.Courses.{left_by, journal_in, vertices_at, setting_in, course_in, course_at, IsCore};
ghost use Rattle.sched_core.specs.Courses.{IsKeptAt, Stays};
ghost use Rattle.sched_core.specs.Candidates.{IsFor, IsJudged, IsCommitted};
ghost use Rattle.sched_core.specs.Answered.{FindsAt, none_at, IsDecided};
ghost use Rattle.sched_core.specs.Judged.{IsJudgedOf};
ghost use Rattle.sched_core.specs.Costs.{AddsAtMost, IsToldAtMost, judge_most, append_most, commit_most};

use crate::appending::append;
use crate::candidates::{Candidate, Commit, copy_verdict};
use crate::finding::{Starts, is_used};
use crate::giving::give;
use crate::held::{Keeping, Kept, Site};
use crate::replying::{none_at, reached};
use flux_defs::{Ask, Command, Entry, Reply, Steps, Verdict};
use overtaken_check::{Cause, overtaken};
use std::alloc::AllocError;
use std::sync::ledger::Ledger;

/// What is told of a candidate.
#[derive(Drop)]
pub(crate) enum Judged {
    /// The reply of a fresh decision.
    Fresh(Reply),
    /// What overtook it.
    Overtaken(Cause),
}

/// The first cause by which a candidate is overtaken: what a search found of the command where so many entries were
/// searched, at the moment there.
pub(crate) fn cause<L: Ledger>(
    site: &Site,
    kept: &Kept,
    command: &Command,
    place: u64,
    moment: u64,
    verdict: &Verdict,
    steps: &mut Steps<L>,
) -> Option<Cause>
    requires core { IsCore site.now kept.now }
    requires moment { moment ≡ (state_at (journal_in kept.now) place).moment }
    requires found { Finds (setting_in site.now kept.now) (state_at (journal_in kept.now) place) command.now
        verdict.now }
    ensures answer { MatchOption result
        (StillStands (setting_in site.now kept.now) (journal_in kept.now) (candidate_of command.now place verdict.now))
        (λ cause. IsOvertaken (setting_in site.now kept.now) (journal_in kept.now)
        (candidate_of command.now place verdict.now) (cause_of cause)) }
    ensures work { steps.new ≤ steps.old
        + (2 * cost_of kept.now.book * length (claims_found verdict.now) + 3 * scan_most (journal_in kept.now) place) }
{
    overtaken(
        &kept.book,
        &site.graph,
        site.horizon,
        &kept.journal,
        command,
        place,
        moment,
        verdict,
        steps,
    )
}

/// The reply that a verdict on an ask for a job yields now; `present` is the present moment.
fn yield_job<L: Ledger>(
    site: &Site,
    kept: &Kept,
    present: u64,
    id: u64,
    ask: &Ask,
    starts: Starts,
    place: u64,
    verdict: Verdict,
    steps: &mut Steps<L>,
) -> Reply
    requires core { IsCore site.now kept.now }
    requires found { FindsJob (setting_in site.now kept.now) (state_at (journal_in kept.now) place) id ask.now
        (FindsAt starts (setting_in site.now kept.now) (state_at (journal_in kept.now) place) ask.now) verdict }
    ensures answer { present ≡ (left_by (journal_in kept.now)).moment →
        Where (Contains (left_by (journal_in kept.now)).used id) reply.Exists
        (YieldsJob (setting_in site.now kept.now) (left_by (journal_in kept.now)) id ask.now (none_at starts) verdict)
        result }
    ensures few { AddsAtMost (length (claims_found verdict)) result }
    ensures work { steps.new ≤ steps.old + 16 * dig (len (rows_of kept.now.book) + 2) }
{
    if is_used(&kept.book, id, steps) {
        return Reply::Exists;
    }
    give(
        reached(site, kept, present),
        id,
        ask,
        none_at(starts),
        verdict,
    )
}

/// The reply that a verdict yields now, of a search where the journal had so many entries; `present` is the present
/// moment.
fn yielded<L: Ledger>(
    site: &Site,
    kept: &Kept,
    present: u64,
    command: &Command,
    place: u64,
    verdict: Verdict,
    steps: &mut Steps<L>,
) -> Reply
    requires core { IsCore site.now kept.now }
    requires found { Finds (setting_in site.now kept.now) (state_at (journal_in kept.now) place) command.now verdict }
    ensures answer { present ≡ (left_by (journal_in kept.now)).moment →
        Yields (setting_in site.now kept.now) (left_by (journal_in kept.now)) command.now verdict result }
    ensures few { AddsAtMost (length (claims_found verdict)) result }
    ensures work { steps.new ≤ steps.old + 16 * dig (len (rows_of kept.now.book) + 2) }
{
    match command {
        Command::Allocate { job, ask } => yield_job(
            site,
            kept,
            present,
            *job,
            ask,
            Starts::Now,
            place,
            verdict,
            steps,
        ),
        Command::Reserve { job, ask } => yield_job(
            site,
            kept,
            present,
            *job,
            ask,
            Starts::Earliest,
            place,
            verdict,
            steps,
        ),
        Command::Satisfy { .. } => match verdict {
            Verdict::Sat => Reply::Satisfiable,
            Verdict::Unsat => Reply::Unsatisfiable,
            _ => unreachable!(),
        },
        _ => unreachable!(),
    }
}

/// What is told of a candidate that nothing overtook: the reply of a fresh decision; `present` is the present moment.
/// The only error is want of memory.
fn fresh<L: Ledger>(
    site: &Site,
    kept: &Kept,
    present: u64,
    command: &Command,
    place: u64,
    verdict: &Verdict,
    steps: &mut Steps<L>,
) -> Result<Judged, AllocError>
    requires core { IsCore site.now kept.now }
    requires found { Finds (setting_in site.now kept.now) (state_at (journal_in kept.now) place) command.now
        verdict.now }
    ensures answer { present ≡ (left_by (journal_in kept.now)).moment →
        StillStands (setting_in site.now kept.now) (journal_in kept.now) (candidate_of command.now place verdict.now) →
        IfOk result (IsJudgedOf (setting_in site.now kept.now) (journal_in kept.now) command.now place verdict.now) }
    ensures few { IfOk result (IsToldAtMost (length (claims_found verdict.now))) }
    ensures work { steps.new ≤ steps.old + 16 * dig (len (rows_of kept.now.book) + 2) }
{
    let copied = copy_verdict(site.alloc, verdict)?;
    Ok(Judged::Fresh(yielded(site, kept, present, command, place, copied, steps)))
}

/// The reply of a fresh decision, or by what the candidate is overtaken. The only error is want of memory.
pub(crate) fn judge<L: Ledger>(
    site: &Site,
    kept: &Kept,
    command: &Command,
    place: u64,
    moment: u64,
    verdict: &Verdict,
    steps: &mut Steps<L>,
) -> Result<Judged, AllocError>
    requires core { IsCore site.now kept.now }
    requires moment { moment ≡ (state_at (journal_in kept.now) place).moment }
    requires found { Finds (setting_in site.now kept.now) (state_at (journal_in kept.now) place) command.now
        verdict.now }
    ensures answer { IfOk result (IsJudgedOf (setting_in site.now kept.now) (journal_in kept.now) command.now place
        verdict.now) }
    ensures few { IfOk result (IsToldAtMost (length (claims_found verdict.now))) }
    ensures work { steps.new ≤ steps.old
        + (2 * cost_of kept.now.book * length (claims_found verdict.now) + 3 * scan_most (journal_in kept.now) place
        + 16 * dig (len (rows_of kept.now.book) + 2)) }
{
    match cause(site, kept, command, place, moment, verdict, steps) {
        Some(cause) => Ok(Judged::Overtaken(cause)),
        None => fresh(site, kept, kept.book.now(), command, place, verdict, steps),
    }
}

/// Keeps the entry of the candidate's command with this reply, and answers its place. The snapshot that was searched
/// gives its book up before, so that what no other one shares is written in place. On want of memory the candidate
/// comes back, and nothing is changed but that the book may be lost.
fn placed<L: Ledger>(
    site: &Site,
    kept: Kept,
    client: u32,
    line: u32,
    candidate: Candidate,
    reply: Reply,
    steps: &mut Steps<L>,
) -> Result<(Kept, u64), (Keeping, Candidate)>
    requires core { IsCore site.now kept }
    requires proper { IsProper (vertices_at site.now) candidate.command }
    requires reply { Replies (setting_in site.now kept) (left_by (journal_in kept)) candidate.command reply }
    ensures place { IfOk result (λ r. r.1 ≡ length (journal_in kept)) }
    ensures core { IfOk result (λ r. IsCore site.now r.0) }
    ensures decided { IfOk result
        (λ r. IsDecided (course_in site.now kept) (course_in site.now r.0) client line candidate.command) }
    ensures err { IfErr result (λ e. Stays site.now kept e.0 × (e.1 ≡ candidate)) }
    ensures work { (most : ℕ) → AddsAtMost most reply →
        steps.new ≤ steps.old + append_most (course_in site.now kept) most }
{
    let end = kept.journal.len();
    let Candidate {
        command,
        snap,
        place,
        verdict,
    } = candidate;
    let snap = snap.without_book();
    let entry = Entry {
        client,
        line,
        command,
        reply,
    };
    match append(site, kept, entry, steps) {
        Ok(next) => Ok((next, end)),
        Err((keeping, command)) => Err((
            keeping,
            Candidate {
                command,
                snap,
                place,
                verdict,
            },
        )),
    }
}

/// Commits a candidate to what is kept: what is kept then, and the answer. On want of memory the candidate comes back,
/// and nothing is changed but that the book may be lost.
pub(crate) fn commit<L: Ledger>(
    site: &Site,
    kept: Kept,
    client: u32,
    line: u32,
    candidate: Candidate,
    steps: &mut Steps<L>,
) -> (Keeping, Result<Commit, (Candidate, AllocError)>)
    requires core { IsCore site.now kept }
    requires candidate { IsFor (course_in site.now kept) candidate }
    ensures kept { IsKeptAt site.now result.0 }
    ensures ok { IfOk result.1
        (IsCommitted (course_in site.now kept) (course_at site.now result.0) client line candidate) }
    ensures err { IfErr result.1
        (λ e. (course_at site.now result.0 ≡ course_in site.now kept) × (e.0 ≡ candidate)) }
    ensures work { steps.new ≤ steps.old + commit_most (course_in site.now kept) candidate }
{
    match judge_candidate(site, &kept, &candidate, steps) {
        Err(fault) => (Keeping::Whole(kept), Err((candidate, fault))),
        Ok(Judged::Overtaken(cause)) => (
            Keeping::Whole(kept),
            Ok(Commit::Stale { candidate, cause }),
        ),
        Ok(Judged::Fresh(reply)) => {
            match placed(site, kept, client, line, candidate, reply, steps) {
                Ok((next, at)) => (Keeping::Whole(next), Ok(Commit::Done { at })),
                Err((keeping, candidate)) => (keeping, Err((candidate, AllocError))),
            }
        }
    }
}

/// The reply that the candidate has now, or by what it is overtaken.
fn judge_candidate<L: Ledger>(
    site: &Site,
    kept: &Kept,
    candidate: &Candidate,
    steps: &mut Steps<L>,
) -> Result<Judged, AllocError>
    requires core { IsCore site.now kept.now }
    requires candidate { IsFor (course_in site.now kept.now) candidate.now }
    ensures answer { IfOk result (IsJudged (course_in site.now kept.now) candidate.now) }
    ensures few { IfOk result (IsToldAtMost (length (claims_found candidate.now.verdict))) }
    ensures work { steps.new ≤ steps.old + judge_most (course_in site.now kept.now) candidate.now }
{
    let moment = candidate.snap.now();
    judge(
        site,
        kept,
        &candidate.command,
        candidate.place,
        moment,
        &candidate.verdict,
        steps,
    )
}
