//! How far a client has come with its next line.
ghost use Rattle.std.specs.Prelude.{◌≡◌, ◌<◌, ◌+◌, ◌^◌, ◌↔◌, All, IsTrue, IfOk, IfSome, IfNone, length, slice_get};
ghost use Rattle.std.specs.Prelude.{slice_set, Some};
ghost use Rattle.flux_defs.specs.declared.journal.Line.{Line};
ghost use Rattle.flux_defs.specs.Interleaving as over;
ghost use Rattle.interleave_law.specs.declared.flights.Progress.{Progress};
ghost use Rattle.interleave_law.specs.Machines.{progress_of, idle_progress, IsNext};

use flux_defs::{Line, Script};
use sched_core::{Candidate, Snap};
use std::alloc::{AllocError, Global};
use std::mem;

/// Not at all; it looked at the journal; or it searched what it looked at.
#[derive(Drop)]
pub(crate) enum Flight {
    Idle,
    Looked(Snap),
    Searched(Candidate),
}

/// How many of its lines a client has done, and how far it has come with the next one.
#[derive(Drop)]
pub(crate) struct Progress {
    pub done: usize,
    pub flight: Flight,
}

/// A client's progress and its next line.
#[derive(Clone, Copy)]
pub(crate) struct Next<'a> {
    pub progress: &'a Progress,
    pub line: &'a Line,
}

impl Progress {
    /// So many lines are done, and no more.
    pub(crate) fn idle(done: usize) -> Progress
        ensures { result ≡ idle_progress done }
    {
        Progress {
            done,
            flight: Flight::Idle,
        }
    }

    /// Whether nothing was done with the next line.
    pub(crate) fn is_idle(&self) -> bool
        ensures { IsTrue result ↔ ((progress_of self.now).flight ≡ over.Idle) }
    {
        matches!(&self.flight, Flight::Idle)
    }
}

/// So many clients that have done nothing.
pub(crate) fn at_rest(alloc: Global, clients: usize) -> Result<Vec<Progress>, AllocError>
    ensures count { IfOk result (λ list. length list.items ≡ clients) }
    ensures rest { IfOk result (λ list. All (λ p. p ≡ idle_progress 0) list.items) }
{
    let mut list = Vec::with_capacity(alloc, clients)?;
    for _count in 0..clients {
        list.push(Progress::idle(0))?;
    }
    Ok(list)
}

/// The client's progress and its next line; `None` exactly where it has no line left, or there is no such client.
pub(crate) fn next_of<'a>(
    script: &'a Script,
    clients: &'a Vec<Progress>,
    client: u32,
) -> Option<Next<'a>>
    ensures some { IfSome result (λ n. IsNext script.now clients.now.items client n.progress.now n.line.now) }
    ensures few { IfSome result (λ n. n.progress.now.done + 1 < 2 ^ 64) }
    ensures none { IfNone result ((p : Progress) (l : Line) → IsNext script.now clients.now.items client p l → ⊥) }
{
    let progress = clients.get(client as usize)?;
    let lines = script.lines.get(client as usize)?;
    let line = lines.items().get(progress.done)?;
    Some(Next { progress, line })
}

/// The client has come as far as this.
pub(crate) fn put(clients: &mut Vec<Progress>, client: u32, progress: Progress)
    requires { client < length clients.old.items }
    ensures { clients.new.items ≡ slice_set clients.old.items client progress }
{
    clients[client as usize] = progress;
}

/// How far the client had come; it is idle then.
pub(crate) fn take(clients: &mut Vec<Progress>, client: u32) -> Progress
    requires { client < length clients.old.items }
    ensures taken { slice_get clients.old.items client ≡ Some result }
    ensures left { clients.new.items ≡ slice_set clients.old.items client (idle_progress result.done) }
{
    let done = clients[client as usize].done;
    mem::replace(&mut clients[client as usize], Progress::idle(done))
}
