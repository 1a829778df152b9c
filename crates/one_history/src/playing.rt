//! All clients at one book.
ghost use Rattle.std.specs.Prelude.{◌≡◌, ℕ, ◌+◌, ◌<◌, [], All, length, IfOk};
ghost use Rattle.std.specs.List.{AllByRecursion, list_any, sum_by};
ghost use mathlib.Core.List.{IsPrefix};
ghost use Rattle.flux_defs.specs.Scheduler.{IsProper};
ghost use Rattle.turn_table.specs.declared.view.TheConstants.{ALL_SHARES};
ghost use Rattle.turn_table.specs.Positions.{times};
ghost use Rattle.turn_table.specs.Seats.{seen, mine, share};
ghost use Rattle.commit_book.specs.Books.{IsSeatOf};
ghost use Rattle.one_history.specs.Dealt.{AreDealt, HasOneShare};
ghost use Rattle.one_history.specs.Together.{NumbersApart, IsPlayedTogether};

use commit_book::{Book, BookSeat};
use flux_defs::{Gate, Line, List, Script, Text};
use match_workers::{Session, serve_all};
use sched_core::Core;
use std::alloc::{AllocError, Global};
use std::sync::Wait;
use std::thread::Threads;

// A session for each client, with its lines and a seat of its own.
fn deal(
    alloc: Global,
    book: &Book,
    seat: &mut BookSeat,
    lines: List<List<Line>>,
) -> Result<List<Session<BookSeat>>, AllocError>
    requires own { IsSeatOf book.now seat.old }
    requires room { length lines < share seat.old }
    requires few { length lines < ALL_SHARES }
    ensures own { IsSeatOf book.now seat.new }
    ensures dealt { IfOk result (AreDealt book.now 0 lines) }
    ensures same { mine seat.new ≡ mine seat.old }
    ensures share { IfOk result (λ sessions. share seat.new + length sessions ≡ share seat.old) }
{
    let mut sessions = Vec::new(alloc);
    for own in lines.into_vec() {
        let session = Session {
            client: sessions.len() as u32,
            lines: own,
            seat: book.split(seat)?,
            done: 0,
            stopped: false,
        };
        sessions.push(session)?;
    }
    Ok(List::of_vec(sessions))
}

// Takes the seats of all sessions in.
fn gather(book: &Book, seat: &mut BookSeat, mut sessions: List<Session<BookSeat>>)
    requires own { IsSeatOf book.now seat.old }
    requires theirs { All (HasOneShare book.now) sessions }
    ensures own { IsSeatOf book.now seat.new }
    ensures seen { All (λ s. IsPrefix (seen s.seat) (seen seat.new)) sessions }
    ensures mine { (p : ℕ) →
        times p (mine seat.new) ≡ times p (mine seat.old) + sum_by (λ s. times p (mine s.seat)) sessions }
    ensures share { share seat.new ≡ share seat.old + length sessions }
{
    while let Some(session) = sessions.pop() {
        book.join(seat, session.seat);
    }
}

// Whether some session found no memory.
fn any_stopped(sessions: &[Session<BookSeat>]) -> bool
    ensures { result ≡ list_any (λ s. s.stopped) sessions.now }
{
    sessions.iter().any(|session| session.stopped)
}

/// What comes of a script: its clients' names, and the core with the history.
#[derive(Drop)]
pub struct Played {
    pub clients: List<Text>,
    pub core: Core,
}

/// Plays a script at a core, all clients beside each other: a thread for each hands in its lines in order. It may wait.
///
/// # Errors
/// No memory is left, here or in a session. The core is gone, then.
pub fn play_script<R: Threads + Wait + Sync, G: Gate + Sync>(
    rt: &R,
    alloc: Global,
    core: Core,
    script: Script,
    gate: &G,
) -> Result<Played, AllocError>
    requires new { core.journal ≡ [] }
    requires few { length script.lines < ALL_SHARES }
    requires proper { AllByRecursion
        (λ lines. AllByRecursion (λ l. IsProper core.setting.graph.vertices l.command) lines) script.lines }
    requires apart { NumbersApart script }
    ensures clients { IfOk result (λ played. played.clients ≡ script.clients) }
    ensures together { IfOk result (λ played. IsPlayedTogether core played.core script) }
{
    let Script { clients, lines } = script;
    let (book, mut seat) = Book::new(alloc, core)?;
    let mut sessions = deal(alloc, &book, &mut seat, lines)?;
    serve_all(rt, alloc, &mut sessions, &book, gate);
    if any_stopped(sessions.items()) {
        return Err(AllocError);
    }
    gather(&book, &mut seat, sessions);
    let core = book.close(seat);
    Ok(Played { clients, core })
}
