//! The calls of a book.
ghost use Rattle.std.specs.Prelude.{◌≡◌, ◌+◌, ◌≤◌, ℕ, [], ◌∷◌, ◌++◌, length, IsOk, IfOk, IfErr};
ghost use Rattle.std.specs.List.{range_with_len};
ghost use mathlib.Core.List.{IsPrefix};
ghost use Rattle.flux_defs.specs.Histories.{IsLegal};
ghost use Rattle.flux_defs.specs.Scheduler.{IsProper};
ghost use Rattle.flux_defs.specs.Sound.{IsSoundThroughout};
ghost use Rattle.sched_core.specs.Candidates.{IsFor, IsCommitted};
ghost use Rattle.turn_table.specs.declared.view.TheConstants.{ALL_SHARES};
ghost use Rattle.turn_table.specs.Positions.{times};
ghost use Rattle.turn_table.specs.Seats.{seen, mine, share};
ghost use Rattle.commit_book.specs.Books.{book_setting, course, IsSeatOf, IsDecidedAt, IsCommittedAt, gained};
ghost use Rattle.commit_book.specs.Books.{SeesAnswer};

use crate::books::{Book, BookSeat};
use crate::held::Held;
use flux_defs::{Command, Steps};
use sched_core::{Candidate, Commit, Core, Snap};
use std::alloc::{AllocError, Global};
use std::marker::Brand;
use std::sync::Wait;
use std::sync::ledger::{Blank, Ledger};
use turn_table::Turn;

// The core's commit, with a count of steps of its own.
fn commit_to<L: Ledger>(
    core: &mut Core,
    client: u32,
    line: u32,
    candidate: Candidate,
    blank: Blank,
) -> Result<Commit, (Candidate, AllocError)>
    requires candidate { IsFor core.old candidate }
    requires name { blank.name ≡ L.name }
    requires parts { blank.parts ≡ L.parts }
    requires some { 1 ≤ blank.parts }
    ensures ok { IfOk result (IsCommitted core.old core.new client line candidate) }
    ensures err { IfErr result (λ e. (core.new ≡ core.old) × (e.0 ≡ candidate)) }
    ensures legal { IsLegal core.new.setting core.new.journal }
{
    let mut steps: Steps<L> = Steps::new(blank);
    core.commit(client, line, candidate, &mut steps)
}

impl Book {
    /// A book of this core, and its first seat: it has seen the core's journal, all positions of it are its own, and it
    /// has every share.
    ///
    /// # Errors
    /// No memory is left.
    pub fn new(alloc: Global, core: Core) -> Result<(Book, BookSeat), AllocError>
        ensures own { IfOk result (λ made. IsSeatOf made.0 made.1) }
        ensures setting { IfOk result (λ made. book_setting made.0 ≡ core.setting) }
        ensures seen { IfOk result (λ made. seen made.1 ≡ core.journal) }
        ensures mine { IfOk result (λ made. mine made.1 ≡ range_with_len 0 (length core.journal)) }
        ensures share { IfOk result (λ made. share made.1 ≡ ALL_SHARES) }
    {
        match Turn::new(alloc, Held { core }) {
            Ok((turn, seat)) => Ok((Book { turn }, seat)),
            Err((_, fault)) => Err(fault),
        }
    }

    /// The book's setting, and a journal that begins with what the seat had seen; the seat has then seen that journal.
    /// It may wait.
    ///
    /// # Errors
    /// No memory is left. The seat may have seen more.
    pub fn snapshot<R: Wait>(&self, rt: &R, seat: &mut BookSeat) -> Result<Snap, AllocError>
        requires own { IsSeatOf self.now seat.old }
        ensures own { IsSeatOf self.now seat.new }
        ensures later { IsPrefix (seen seat.old) (seen seat.new) }
        ensures snap { IfOk result (λ snap. snap ≡ course (book_setting self.now) (seen seat.new)) }
        ensures legal { IsLegal (book_setting self.now) (seen seat.new) }
        ensures same { (mine seat.new ≡ mine seat.old) × (share seat.new ≡ share seat.old) }
    {
        let held = self.turn.take(rt, seat);
        let snap = held.core.snap();
        held.core.is_sound();
        self.turn.give(seat, held);
        snap
    }

    /// The core's answer to a candidate, on a journal that begins with what the seat had seen: its entry stands at the
    /// end of the journal, or something overtook it, and it comes back with the cause. The seat has then seen the
    /// journal.
    /// It may wait.
    ///
    /// # Errors
    /// No memory is left. The candidate comes back, and no entry was placed; the seat may have seen more.
    pub fn commit<R: Wait>(
        &self,
        rt: &R,
        seat: &mut BookSeat,
        client: u32,
        line: u32,
        candidate: Candidate,
    ) -> Result<Commit, (Candidate, AllocError)>
        requires own { IsSeatOf self.now seat.old }
        requires setting { candidate.snap.setting ≡ book_setting self.now }
        requires searched { IsPrefix candidate.snap.journal (seen seat.old) }
        ensures own { IsSeatOf self.now seat.new }
        ensures later { IsPrefix (seen seat.old) (seen seat.new) }
        ensures ok { IfOk result
            (IsCommittedAt (book_setting self.now) client line candidate (seen seat.old) (seen seat.new)) }
        ensures seen { IfOk result (SeesAnswer client line candidate.command (seen seat.old) (seen seat.new)) }
        ensures mine { IfOk result (λ commit. mine seat.new ≡ mine seat.old ++ gained commit) }
        ensures err { IfErr result (λ e. (e.0 ≡ candidate) × (mine seat.new ≡ mine seat.old)) }
        ensures legal { IsLegal (book_setting self.now) (seen seat.new) }
        ensures share { share seat.new ≡ share seat.old }
    {
        let mut held = self.turn.take(rt, seat);
        // On want of memory the core is seen as before: so it goes home.
        let answer = commit_to::<Brand>(&mut held.core, client, line, candidate, Blank::new(1));
        self.turn.give(seat, held);
        answer
    }

    /// Places the entry of a command, with the core's reply on a journal that begins with what the seat had seen, and
    /// answers its position. The seat has then seen it. It may wait.
    ///
    /// # Errors
    /// No memory is left. The command comes back, and no entry was placed; the seat may have seen more.
    pub fn decide<R: Wait>(
        &self,
        rt: &R,
        seat: &mut BookSeat,
        client: u32,
        line: u32,
        command: Command,
    ) -> Result<u64, (Command, AllocError)>
        requires own { IsSeatOf self.now seat.old }
        requires proper { IsProper (book_setting self.now).graph.vertices command }
        ensures own { IsSeatOf self.now seat.new }
        ensures later { IsPrefix (seen seat.old) (seen seat.new) }
        ensures ok { IfOk result
            (IsDecidedAt (book_setting self.now) client line command (seen seat.old) (seen seat.new)) }
        ensures mine { IfOk result (λ at. mine seat.new ≡ mine seat.old ++ at ∷ []) }
        ensures err { IfErr result (λ e. (e.0 ≡ command) × (mine seat.new ≡ mine seat.old)) }
        ensures legal { IsLegal (book_setting self.now) (seen seat.new) }
        ensures share { share seat.new ≡ share seat.old }
    {
        let mut held = self.turn.take(rt, seat);
        // On want of memory the core is seen as before: so it goes home.
        let answer = held.core.decide(client, line, command);
        self.turn.give(seat, held);
        answer
    }

    /// How many entries a journal has that begins with what the seat had seen. The seat has then seen that journal. It
    /// takes no memory and never waits.
    pub fn version(&self, seat: &mut BookSeat) -> u64
        requires own { IsSeatOf self.now seat.old }
        ensures own { IsSeatOf self.now seat.new }
        ensures later { IsPrefix (seen seat.old) (seen seat.new) }
        ensures count { result ≡ length (seen seat.new) }
        ensures same { (mine seat.new ≡ mine seat.old) × (share seat.new ≡ share seat.old) }
    {
        self.turn.version(seat)
    }

    /// Another seat, which has seen as much, has no position, and has one share of this seat's. It never waits and
    /// takes no memory, so it always succeeds.
    pub fn split(&self, seat: &mut BookSeat) -> Result<BookSeat, AllocError>
        requires own { IsSeatOf self.now seat.old }
        requires room { 2 ≤ share seat.old }
        ensures always { IsOk result }
        ensures own { IsSeatOf self.now seat.new }
        ensures new { IfOk result (λ new. IsSeatOf self.now new) }
        ensures seen { (seen seat.new ≡ seen seat.old) × IfOk result (λ new. seen new ≡ seen seat.old) }
        ensures mine { (mine seat.new ≡ mine seat.old) × IfOk result (λ new. mine new ≡ []) }
        ensures share { (share seat.new + 1 ≡ share seat.old) × IfOk result (λ new. share new ≡ 1) }
    {
        self.turn.split(seat)
    }

    /// Takes another seat in. The seat has then seen a journal that begins with what each of the two had seen, and has
    /// the positions and the shares of both. It takes no memory and never waits.
    pub fn join(&self, seat: &mut BookSeat, other: BookSeat)
        requires own { IsSeatOf self.now seat.old }
        requires other { IsSeatOf self.now other }
        ensures own { IsSeatOf self.now seat.new }
        ensures seen { IsPrefix (seen seat.old) (seen seat.new) × IsPrefix (seen other) (seen seat.new) }
        ensures mine { (p : ℕ) → times p (mine seat.new) ≡ times p (mine seat.old) + times p (mine other) }
        ensures share { share seat.new ≡ share seat.old + share other }
    {
        self.turn.join(seat, other);
    }

    /// The core, at the end: its journal is legal, and after each of its entries no vertex is oversubscribed. The seat
    /// is the last one: all positions of the journal are its own.
    pub fn close(self, seat: BookSeat) -> Core
        requires own { IsSeatOf self seat }
        requires last { share seat ≡ ALL_SHARES }
        ensures setting { result.setting ≡ book_setting self }
        ensures later { IsPrefix (seen seat) result.journal }
        ensures mine { mine seat ≡ range_with_len 0 (length result.journal) }
        ensures legal { IsLegal result.setting result.journal }
        ensures sound { IsSoundThroughout result.setting.graph.vertices result.journal }
    {
        let Book { turn } = self;
        let Held { core } = turn.close(seat);
        core.is_sound();
        core
    }
}
