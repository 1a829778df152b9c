//! Sixty-four clients at a desk in memory.
ghost use Rattle.std.specs.Prelude.{◌≡◌, ◌+◌, ◌<◌, All, false, length, IfOk};
ghost use Rattle.turn_table.specs.declared.view.TheConstants.{ALL_SHARES};
ghost use Rattle.turn_table.specs.Seats.{share, Rests};
ghost use Rattle.turn_table.specs.Turns.{Belongs};

use crate::listing::{Calls, Listing, open};
use flux_defs::{Command, Entry, Line, List, OpenGate};
use match_workers::{Session, serve_all};
use std::alloc::{AllocError, Global};
use std::sync::Wait;
use std::test::Fail;
use std::thread::Threads;
use turn_table::Seat;

const CLIENTS: u32 = 64;

const LINES: u32 = 200;

// The lines of a client: the numbers of all clients' lines go round.
fn lines_of(alloc: Global, client: u32) -> Result<List<Line>, AllocError>
    requires { client < CLIENTS }
{
    let mut lines = List::new(alloc);
    for at in 0..LINES {
        let line = at * CLIENTS + client;
        let command = Command::Cancel { job: line as u64 };
        if let Err((_, fault)) = lines.push(Line { line, command }) {
            return Err(fault);
        }
    }
    Ok(lines)
}

// A session for each client.
fn deal(
    alloc: Global,
    desk: &Listing,
    first: &mut Seat<Calls>,
) -> Result<List<Session<Seat<Calls>>>, AllocError>
    requires own { Belongs (λ _. 0) desk.now.turn first.old × Rests first.old }
    requires share { share first.old ≡ ALL_SHARES }
    ensures own { Belongs (λ _. 0) desk.now.turn first.new × Rests first.new }
    ensures theirs { IfOk result (λ sessions. All (λ s. Belongs (λ _. 0) desk.now.turn s.seat × Rests s.seat
        × (share s.seat ≡ 1) × (s.done ≡ 0) × (s.stopped ≡ false)) sessions) }
    ensures share { IfOk result (λ sessions. share first.new + length sessions ≡ ALL_SHARES) }
{
    let mut sessions = Vec::new(alloc);
    for client in 0..CLIENTS {
        let seat = desk.turn.split(first)?;
        let lines = lines_of(alloc, client)?;
        sessions.push(Session {
            client,
            lines,
            seat,
            done: 0,
            stopped: false,
        })?;
    }
    Ok(List::of_vec(sessions))
}

// Serves all sessions; they keep their seats.
fn serve<R: Threads + Wait + Sync>(
    rt: &R,
    alloc: Global,
    desk: &Listing,
    sessions: &mut List<Session<Seat<Calls>>>,
)
    requires { All (λ s. Belongs (λ _. 0) desk.now.turn s.seat × Rests s.seat
        × (share s.seat ≡ 1) × (s.done ≡ 0) × (s.stopped ≡ false)) sessions.old }
    ensures theirs { All (λ s. Belongs (λ _. 0) desk.now.turn s.seat × Rests s.seat × (share s.seat ≡ 1)) sessions.new }
    ensures count { length sessions.new ≡ length sessions.old }
{
    serve_all(rt, alloc, sessions, desk, &OpenGate);
}

// Takes all seats in.
fn gather(desk: &Listing, first: &mut Seat<Calls>, mut sessions: List<Session<Seat<Calls>>>)
    requires own { Belongs (λ _. 0) desk.now.turn first.old × Rests first.old }
    requires theirs { All (λ s. Belongs (λ _. 0) desk.now.turn s.seat × Rests s.seat × (share s.seat ≡ 1)) sessions }
    requires share { share first.old + length sessions ≡ ALL_SHARES }
    ensures own { Belongs (λ _. 0) desk.now.turn first.new × Rests first.new }
    ensures share { share first.new ≡ ALL_SHARES }
{
    while let Some(session) = sessions.pop() {
        desk.turn.join(first, session.seat);
    }
}

// Each client's calls are its lines, in their order.
fn are_in_order(alloc: Global, calls: &[Entry]) -> Result<bool, AllocError> {
    let mut next = vec![in alloc; 0u32; 64]?;
    for call in calls {
        let Some(count) = next.get_mut(call.client as usize) else {
            return Ok(false);
        };
        let line = count.saturating_mul(CLIENTS).saturating_add(call.client);
        let is_own = matches!(&call.command, Command::Cancel { job } if *job == line as u64);
        if call.line != line || !is_own {
            return Ok(false);
        }
        *count = count.saturating_add(1);
    }
    Ok(next.iter().all(|count| *count == LINES))
}

#[test]
fn sixty_four_clients_hand_in_their_lines(rt: HostRuntime) -> Result<(), Fail> {
    let alloc = rt.alloc();
    let (desk, mut first) = open(alloc)?;
    let mut sessions = deal(alloc, &desk, &mut first)?;
    serve(&rt, alloc, &desk, &mut sessions);
    for session in sessions.items() {
        assert!(rt; session.done == LINES as u64 && !session.stopped);
    }
    gather(&desk, &mut first, sessions);
    let calls = desk.turn.close(first);
    assert_eq!(rt; calls.entries.len(), 12_800);
    assert!(rt; are_in_order(alloc, calls.entries.items())?);
    Ok(())
}
