//! A commit, with what overtook a candidate left aside.
ghost use Rattle.std.specs.Prelude.{◌≡◌, IfOk, IfErr};
ghost use Rattle.sched_core.specs.Candidates.{IsFor};
ghost use Rattle.interleave_law.specs.Machines.{IsTried};

use flux_defs::Steps;
use sched_core::{Candidate, Commit, Core};
use std::alloc::AllocError;
use std::sync::ledger::Ledger;

/// Whether the candidate's entry was appended; if something overtook the candidate, nothing changed. On want of memory,
/// which is the only error, the candidate comes back, and nothing changed.
pub(crate) fn place<L: Ledger>(
    core: &mut Core,
    client: u32,
    line: u32,
    candidate: Candidate,
    steps: &mut Steps<L>,
) -> Result<bool, (Candidate, AllocError)>
    requires candidate { IsFor core.old candidate }
    ensures ok { IfOk result (IsTried core.old core.new client line candidate) }
    ensures err { IfErr result (λ e. (core.new ≡ core.old) × (e.0 ≡ candidate)) }
{
    match core.commit(client, line, candidate, steps) {
        Ok(Commit::Done { at: _at }) => Ok(true),
        Ok(
            Commit::Stale {
                candidate: _overtaken,
                cause: _cause,
            },
        ) => Ok(false),
        Err(refused) => Err(refused),
    }
}
