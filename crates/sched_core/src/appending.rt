//! A journal with one entry more.
ghost use Rattle.std.specs.Prelude.{◌≡◌, ℕ, ◌+◌, ◌*◌, ◌≤◌, [], ◌∷◌, ◌++◌, length, IfOk, IfErr};
ghost use Rattle.flux_defs.specs.declared.journal.Entry.{Entry};
ghost use Rattle.flux_defs.specs.Scheduler.{State, IsProper, Replies, after};
ghost use Rattle.flux_defs.specs.declared.journal.Command.{Command};
ghost use Rattle.flux_defs.specs.Digits.{dig};
ghost use Rattle.book_state.specs.Books.{change_cost_of};
ghost use Rattle.sched_core.specs.Costs.{AddsAtMost};
ghost use Rattle.sched_core.specs.Courses.{left_by, journal_in, vertices_at, setting_in, IsCore, Grows, Stays};
ghost use Rattle.sched_core.specs.declared.held.Site.{Site};
ghost use Rattle.sched_core.specs.declared.held.Keeping.TheVariants as keeping;
ghost use Rattle.sched_core.specs.Answered.{HasRoom};

use crate::following::follow;
use crate::held::{Keeping, Kept, Remains, Site};
use book_state::BookState;
use flux_defs::{Command, Entry, Reply, Steps};
use std::alloc::AllocError;
use std::sync::ledger::Ledger;

/// How many claims the accepted jobs had after this reply.
fn claims_after(limit: u64, claims: u64, reply: &Reply) -> u64
    requires room { HasRoom limit claims reply.now }
    ensures { (s : State) (command : Command) → s.claim_count ≡ claims →
        result ≡ (after s command reply.now).claim_count }
{
    match reply {
        Reply::Allocated(job) => claims + job.claims.len() as u64,
        Reply::Reserved(job) => claims + job.claims.len() as u64,
        _ => claims,
    }
}

/// What stays of what is kept where its book is given up. It takes no memory.
pub(crate) fn without_book(kept: Kept) -> Remains
    ensures { (site : Site) → IsCore site kept → Stays site kept (keeping.Remains result) }
{
    let Kept {
        journal,
        book,
        claim_count,
    } = kept;
    let moment = book.now();
    Remains {
        frame: book.into_frame(),
        journal,
        moment,
        claim_count,
    }
}

/// Keeps one entry more. On want of memory the command comes back, and nothing is changed but that the book may be
/// lost.
pub(crate) fn append<L: Ledger>(
    site: &Site,
    kept: Kept,
    entry: Entry,
    steps: &mut Steps<L>,
) -> Result<Kept, (Keeping, Command)>
    requires core { IsCore site.now kept }
    requires proper { IsProper (vertices_at site.now) entry.command }
    requires reply { Replies (setting_in site.now kept) (left_by (journal_in kept)) entry.command entry.reply }
    ensures ok { IfOk result (λ next. Grows site.now kept next entry) }
    ensures err { IfErr result (λ e. Stays site.now kept e.0 × (e.1 ≡ entry.command)) }
    ensures work { (most : ℕ) → AddsAtMost most entry.reply →
        steps.new ≤ steps.old + (change_cost_of kept.book most + 2 * dig (length (journal_in kept) + 1)) }
{
    let Ok(frame) = kept.book.frame() else {
        return Err((Keeping::Whole(kept), entry.command));
    };
    let claims = claims_after(site.claim_limit, kept.claim_count, &entry.reply);
    let Kept {
        journal,
        book,
        claim_count,
    } = kept;
    let left = Remains {
        frame,
        journal,
        moment: book.now(),
        claim_count,
    };
    let Ok(book) = follow(
        site.alloc,
        &left.journal,
        book,
        &entry.command,
        &entry.reply,
        steps,
    ) else {
        return Err((Keeping::Remains(left), entry.command));
    };
    pushed(site, left, book, claims, entry, steps)
}

/// Keeps one entry more, where the book is after it already.
fn pushed<L: Ledger>(
    site: &Site,
    left: Remains,
    book: BookState,
    claims: u64,
    entry: Entry,
    steps: &mut Steps<L>,
) -> Result<Kept, (Keeping, Command)>
    ensures ok { IfOk result (λ next. (journal_in next ≡ left.journal ++ entry ∷ []) × (next.book ≡ book)
        × (next.claim_count ≡ claims)) }
    ensures err { IfErr result (λ e. (e.0 ≡ keeping.Remains left) × (e.1 ≡ entry.command)) }
    ensures work { steps.new ≤ steps.old + 2 * dig (length left.journal + 1) }
{
    let Remains {
        frame,
        mut journal,
        moment,
        claim_count,
    } = left;
    match journal.push(site.alloc, entry, steps) {
        Ok(()) => Ok(Kept {
            journal,
            book,
            claim_count: claims,
        }),
        Err((entry, _)) => Err((
            Keeping::Remains(Remains {
                frame,
                journal,
                moment,
                claim_count,
            }),
            entry.command,
        )),
    }
}
