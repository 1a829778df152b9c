//! A book as a desk.
ghost use Rattle.std.specs.Prelude.{◌≡◌, ◌↔◌, ◌≤◌, IsTrue, ◌∷◌, [], ◌++◌, IfOk, IfErr};
ghost use Rattle.std.specs.Option.{option_copied};
ghost use mathlib.Core.List.{IsPrefix};
ghost use Rattle.flux_defs.specs.Placed.{IsPlaced};
ghost use Rattle.flux_defs.specs.Scheduler.{IsProper};
ghost use Rattle.flux_defs.specs.Verdicts.{IsSearchable};
ghost use Rattle.turn_table.specs.Seats.{seen, mine, share};
ghost use Rattle.commit_book.specs.Books.{book_setting, course, entry_in, IsSeatOf};
ghost use Rattle.commit_book.specs.Submits.{IsTried};

use crate::books::{Book, BookSeat};
use flux_defs::{Claim, Command, Desk, Gate, List, Place, Steps, Verdict};
use overtaken_check::Cause;
use sched_core::{Candidate, Commit, Core, Snap, is_searched_for};
use std::alloc::AllocError;
use std::marker::Brand;
use std::sync::Wait;
use std::sync::ledger::{Blank, Ledger};

/// How often a command is searched for before it is decided under the turn.
const TRIES: u64 = 3;

/// What came of one search.
#[derive(Drop)]
pub(crate) enum Try {
    /// The entry stands there.
    Placed(u64),
    /// What was found was overtaken; this is its command.
    Overtaken(Command),
}

// The entry that overtook a candidate.
fn entry_of(cause: &Cause) -> u64
    ensures { result ≡ entry_in cause.now }
{
    match cause {
        Cause::Freed { at } | Cause::Late { at } | Cause::Taken { at, .. } => *at,
    }
}

// The claims that were found.
fn claims_of(verdict: &Verdict) -> Option<&List<Claim>> {
    match verdict {
        Verdict::Found { claims, .. } => Some(claims),
        _ => None,
    }
}

// The core's search, with a count of steps of its own.
fn search_in<L: Ledger>(
    snap: Snap,
    command: Command,
    blank: Blank,
) -> Result<Candidate, (Command, AllocError)>
    requires searchable { IsSearchable command }
    requires proper { IsProper snap.setting.graph.vertices command }
    requires name { blank.name ≡ L.name }
    requires parts { blank.parts ≡ L.parts }
    requires some { 1 ≤ blank.parts }
    ensures ok { IfOk result (λ c. (c.command ≡ command) × (c.snap ≡ snap)) }
    ensures err { IfErr result (λ e. e.0 ≡ command) }
{
    let mut steps: Steps<L> = Steps::new(blank);
    Core::search_all(snap, command, &mut steps)
}

impl Book {
    // What a search of a snapshot finds, without the turn. The snapshot is the candidate's from then on, and no other
    // holds it: so what no other client shares is written in place when it is committed.
    fn searched<R: Wait>(
        &self,
        rt: &R,
        seat: &mut BookSeat,
        command: Command,
    ) -> Result<Candidate, (Command, AllocError)>
        requires own { IsSeatOf self.now seat.old }
        requires searchable { IsSearchable command }
        requires proper { IsProper (book_setting self.now).graph.vertices command }
        ensures own { IsSeatOf self.now seat.new }
        ensures later { IsPrefix (seen seat.old) (seen seat.new) }
        ensures same { (mine seat.new ≡ mine seat.old) × (share seat.new ≡ share seat.old) }
        ensures ok { IfOk result (λ c. (c.command ≡ command)
            × (c.snap ≡ course (book_setting self.now) (seen seat.new))) }
        ensures err { IfErr result (λ e. e.0 ≡ command) }
    {
        let snap = match self.snapshot(rt, seat) {
            Ok(snap) => snap,
            Err(fault) => return Err((command, fault)),
        };
        search_in::<Brand>(snap, command, Blank::new(1))
    }

    // Searches a snapshot, while it has no turn, and commits what was found.
    fn search_and_commit<R: Wait, G: Gate>(
        &self,
        rt: &R,
        seat: &mut BookSeat,
        client: u32,
        line: u32,
        command: Command,
        gate: &G,
    ) -> Result<Try, (Command, AllocError)>
        requires own { IsSeatOf self.now seat.old }
        requires searchable { IsSearchable command }
        requires proper { IsProper (book_setting self.now).graph.vertices command }
        ensures own { IsSeatOf self.now seat.new }
        ensures share { share seat.new ≡ share seat.old }
        ensures later { IsPrefix (seen seat.old) (seen seat.new) }
        ensures ok { IfOk result
            (IsTried client line command (seen seat.old) (mine seat.old) (seen seat.new) (mine seat.new)) }
        ensures err { IfErr result (λ e. (e.0 ≡ command) × (mine seat.new ≡ mine seat.old)) }
    {
        let candidate = match self.searched(rt, seat, command) {
            Ok(candidate) => candidate,
            Err(refused) => return Err(refused),
        };
        let length = candidate.place();
        let claims = claims_of(candidate.verdict());
        gate.at(client, Place::Searched { length, claims });
        match self.commit(rt, seat, client, line, candidate) {
            Ok(Commit::Done { at }) => Ok(Try::Placed(at)),
            Ok(Commit::Stale { candidate, cause }) => {
                let at = entry_of(&cause);
                gate.at(client, Place::Overtaken { at });
                Ok(Try::Overtaken(candidate.into_command()))
            }
            Err((candidate, fault)) => Err((candidate.into_command(), fault)),
        }
    }

    // Places the entry of a command that is searched for: what was found is committed, unless it was overtaken too
    // often.
    fn place_searched<R: Wait, G: Gate>(
        &self,
        rt: &R,
        seat: &mut BookSeat,
        client: u32,
        line: u32,
        command: Command,
        gate: &G,
    ) -> Result<u64, (Command, AllocError)>
        requires own { IsSeatOf self.now seat.old }
        requires searchable { IsSearchable command }
        requires proper { IsProper (book_setting self.now).graph.vertices command }
        ensures own { IsSeatOf self.now seat.new }
        ensures share { share seat.new ≡ share seat.old }
        ensures later { IsPrefix (seen seat.old) (seen seat.new) }
        ensures placed { IfOk result (λ at. IsPlaced client line command at (seen seat.old) (seen seat.new)) }
        ensures mine { IfOk result (λ at. mine seat.new ≡ mine seat.old ++ at ∷ []) }
        ensures err { IfErr result (λ e. (e.0 ≡ command) × (mine seat.new ≡ mine seat.old)) }
    {
        let mut command = command;
        for _ in 0..TRIES {
            match self.search_and_commit(rt, seat, client, line, command, gate) {
                Ok(Try::Placed(at)) => return Ok(at),
                Ok(Try::Overtaken(same)) => command = same,
                Err(refused) => return Err(refused),
            }
        }
        self.decide(rt, seat, client, line, command)
    }
}

impl Desk for Book {
    type Seat = BookSeat;

    ghost takes = { λ book seat. IsSeatOf book seat };

    ghost accepts = { λ book command. IsProper (book_setting book).graph.vertices command };

    ghost seen = { λ seat. seen seat };

    ghost mine = { λ seat. mine seat };

    ghost share = { λ seat. share seat };

    fn submit<R: Wait, G: Gate>(
        &self,
        rt: &R,
        seat: &mut BookSeat,
        client: u32,
        line: u32,
        command: Command,
        gate: &G,
    ) -> Result<u64, (Command, AllocError)> {
        let answer = if is_searched_for(&command) {
            self.place_searched(rt, seat, client, line, command, gate)
        } else {
            self.decide(rt, seat, client, line, command)
        };
        if answer.is_ok() {
            gate.at(client, Place::Placed);
        }
        answer
    }
}
