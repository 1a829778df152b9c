//! The entry of a command.
ghost use Rattle.std.specs.Prelude.{◌≡◌, IfOk, IfErr};
ghost use Rattle.flux_defs.specs.Scheduler.{IsProper};
ghost use Rattle.sched_core.specs.Courses.{vertices_at, IsCore, Decides, Stays};

use crate::appending::append;
use crate::held::{Keeping, Kept, Site};
use crate::replying::reply;
use flux_defs::{Command, Entry, Steps};
use std::sync::ledger::Ledger;

/// Keeps the entry of a command. On want of memory the command comes back, and nothing is changed but that the book may
/// be lost.
pub(crate) fn decide<L: Ledger>(
    site: &Site,
    kept: Kept,
    client: u32,
    line: u32,
    command: Command,
    steps: &mut Steps<L>,
) -> Result<Kept, (Keeping, Command)>
    requires core { IsCore site.now kept }
    requires proper { IsProper (vertices_at site.now) command }
    ensures ok { IfOk result (λ next. Decides site.now kept next client line command) }
    ensures err { IfErr result (λ e. Stays site.now kept e.0 × (e.1 ≡ command)) }
{
    match reply(site, &kept, &command, steps) {
        Err(_) => Err((Keeping::Whole(kept), command)),
        Ok(reply) => append(
            site,
            kept,
            Entry {
                client,
                line,
                command,
                reply,
            },
            steps,
        ),
    }
}
