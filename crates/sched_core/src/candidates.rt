//! Candidates.
ghost use Rattle.std.specs.Prelude.{◌≡◌, IfOk};
ghost use Rattle.sched_core.specs.Searched.{IsSearched};

use crate::snaps::Snap;
use flux_defs::{Command, List, Verdict};
use overtaken_check::Cause;
use std::alloc::{AllocError, Global};
use std::marker::Model;

/// A command, the state that was searched for it, and what was found there. Contracts see the command, the state
/// (`snap`), how many entries its journal had (`place`) and the verdict.
#[derive(Drop)]
pub struct Candidate {
    pub(crate) command: Command,
    pub(crate) snap: Snap,
    pub(crate) place: u64,
    pub(crate) verdict: Verdict,
}

impl Model for Candidate {
    ghost use Rattle.flux_defs.specs.contracts.requests.Need as need;
    ghost use Rattle.std.specs.Coded.{codes};
    ghost use Rattle.sched_core.specs.Searched.{Searched, IsSearched};

    ghost Value = { Searched };

    ghost coded = { Prim.hlevel (codes, need.the_row.coded) };

    ghost view = { λ c. record { command = c.command; snap = c.snap; place = c.place; verdict = c.verdict } };

    ghost invariant = { λ c. IsSearched c.command c.snap c.place c.verdict };
}

impl Candidate {
    /// The command.
    pub fn command(&self) -> &Command
        ensures { result.now ≡ self.now.command }
    {
        &self.command
    }

    /// The command, taken out. It takes no memory.
    pub fn into_command(self) -> Command
        ensures { result ≡ self.command }
    {
        let Candidate { command, .. } = self;
        command
    }

    /// The verdict.
    pub fn verdict(&self) -> &Verdict
        ensures { result.now ≡ self.now.verdict }
    {
        &self.verdict
    }

    /// A law: the verdict is what a search finds in the state that was searched, and the command is proper there. It
    /// does nothing.
    pub fn is_found(&self)
        ensures { IsSearched self.now.command self.now.snap self.now.place self.now.verdict }
    {
        let _ = &self.place;
    }

    /// How many entries the journal had that was searched.
    pub fn place(&self) -> u64
        ensures { result ≡ self.now.place }
    {
        self.place
    }
}

/// What came of a commit.
#[derive(Drop)]
pub enum Commit {
    /// The entry at this place is the command's, with the reply of a fresh decision.
    Done { at: u64 },
    /// The candidate is overtaken, and nothing was changed.
    Stale { candidate: Candidate, cause: Cause },
}

/// An equal verdict.
pub(crate) fn copy_verdict(alloc: Global, verdict: &Verdict) -> Result<Verdict, AllocError>
    ensures { IfOk result (λ copied. copied ≡ verdict.now) }
{
    match verdict {
        Verdict::Found { start, claims } => Ok(Verdict::Found {
            start: *start,
            claims: List::of_vec(Vec::from_slice(alloc, claims.items())?),
        }),
        Verdict::NoFit => Ok(Verdict::NoFit),
        Verdict::Unsat => Ok(Verdict::Unsat),
        Verdict::Sat => Ok(Verdict::Sat),
        Verdict::Long => Ok(Verdict::Long),
        Verdict::Known => Ok(Verdict::Known),
    }
}
