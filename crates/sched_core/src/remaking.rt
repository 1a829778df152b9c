//! A book that was lost, made again of the journal.
ghost use Rattle.std.specs.Prelude.{◌≡◌, ◌+◌, ◌<◌, length, IfOk, IfErr};
ghost use Rattle.sched_core.specs.declared.held.Keeping.TheVariants as keeping;
ghost use Rattle.sched_core.specs.Courses.{course_in, course_at, IsCore, IsLeft, IsKeptAt, IsMadeTo};

use crate::appending::append;
use crate::held::{Keeping, Kept, Remains, Site};
use flux_defs::{Entry, Reply, Steps};
use snapshot_store::Pages;
use std::alloc::{AllocError, Global};
use std::marker::Brand;
use std::mem;
use std::sync::ledger::{Blank, Ledger};

/// An equal reply.
fn copy_reply(alloc: Global, reply: &Reply) -> Result<Reply, AllocError>
    ensures { IfOk result (λ same. same ≡ reply.now) }
{
    match reply {
        Reply::Allocated(job) => Ok(Reply::Allocated(job.copy(alloc)?)),
        Reply::Reserved(job) => Ok(Reply::Reserved(job.copy(alloc)?)),
        Reply::Busy => Ok(Reply::Busy),
        Reply::NoStart => Ok(Reply::NoStart),
        Reply::Unsatisfiable => Ok(Reply::Unsatisfiable),
        Reply::Satisfiable => Ok(Reply::Satisfiable),
        Reply::TooLong => Ok(Reply::TooLong),
        Reply::Exists => Ok(Reply::Exists),
        Reply::Absent => Ok(Reply::Absent),
        Reply::Cancelled => Ok(Reply::Cancelled),
        Reply::Info { phase, start, end } => Ok(Reply::Info {
            phase: *phase,
            start: *start,
            end: *end,
        }),
        Reply::Now { at } => Ok(Reply::Now { at: *at }),
        Reply::Backwards => Ok(Reply::Backwards),
        Reply::Beyond => Ok(Reply::Beyond),
        Reply::Full => Ok(Reply::Full),
        Reply::Invalid => Ok(Reply::Invalid),
    }
}

/// An equal entry.
fn copy_entry(alloc: Global, entry: &Entry) -> Result<Entry, AllocError>
    ensures { IfOk result (λ same. same ≡ entry.now) }
{
    Ok(Entry {
        client: entry.client,
        line: entry.line,
        command: entry.command.copy(alloc)?,
        reply: copy_reply(alloc, &entry.reply)?,
    })
}

/// What is kept before the first entry.
fn first(site: &Site, left: &Remains) -> Result<Kept, AllocError>
    requires { IsLeft site.now left.now }
    ensures { IfOk result (IsMadeTo site.now left.now 0) }
{
    let book = left.frame.book(site.alloc)?;
    Ok(Kept {
        journal: Pages::empty(),
        book,
        claim_count: 0,
    })
}

/// What is kept with a copy of the entry at that place more.
fn next<L: Ledger>(
    site: &Site,
    left: &Remains,
    kept: Kept,
    at: u64,
    steps: &mut Steps<L>,
) -> Result<Kept, AllocError>
    requires left { IsLeft site.now left.now }
    requires within { at < length left.now.journal }
    requires made { IsMadeTo site.now left.now at kept }
    ensures { IfOk result (IsMadeTo site.now left.now (at + 1)) }
{
    let Some(entry) = left.journal.get(at, steps) else {
        unreachable!()
    };
    let entry = copy_entry(site.alloc, entry)?;
    match append(site, kept, entry, steps) {
        Ok(next) => Ok(next),
        Err(_) => Err(AllocError),
    }
}

/// What is kept, with a book that is made of the journal entry by entry. It costs by the whole journal, and no caller
/// counts its steps: it is made once after want of memory.
pub(crate) fn remade(site: &Site, left: &Remains) -> Result<Kept, AllocError>
    requires { IsLeft site.now left.now }
    ensures core { IfOk result (λ kept. IsCore site.now kept) }
    ensures course { IfOk result (λ kept. course_in site.now kept ≡ course_at site.now (keeping.Remains left.now)) }
{
    remade_counted::<Brand>(site, left, Blank::new(1))
}

fn remade_counted<L: Ledger>(site: &Site, left: &Remains, blank: Blank) -> Result<Kept, AllocError>
    requires left { IsLeft site.now left.now }
    requires name { blank.name ≡ L.name }
    requires parts { blank.parts ≡ L.parts }
    requires some { 0 < blank.parts }
    ensures core { IfOk result (λ kept. IsCore site.now kept) }
    ensures course { IfOk result (λ kept. course_in site.now kept ≡ course_at site.now (keeping.Remains left.now)) }
{
    let mut steps: Steps<L> = Steps::new(blank);
    let mut kept = first(site, left)?;
    for at in 0..left.journal.len() {
        kept = next(site, left, kept, at, &mut steps)?;
    }
    Ok(kept)
}

/// Takes out what is kept, with its book. On want of memory all stays as it is.
pub(crate) fn taken(site: &Site, keeping: &mut Keeping) -> Result<Kept, AllocError>
    requires { IsKeptAt site.now keeping.old }
    ensures core { IfOk result (λ kept. IsCore site.now kept) }
    ensures course { IfOk result (λ kept. course_in site.now kept ≡ course_at site.now keeping.old) }
    ensures same { IfErr result (λ _. keeping.new ≡ keeping.old) }
{
    match mem::replace(keeping, Keeping::Nothing) {
        Keeping::Whole(kept) => Ok(kept),
        Keeping::Remains(left) => match remade(site, &left) {
            Ok(kept) => Ok(kept),
            Err(fault) => {
                *keeping = Keeping::Remains(left);
                Err(fault)
            }
        },
        Keeping::Nothing => unreachable!(),
    }
}
