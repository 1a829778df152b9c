//! Sessions, served.
ghost use Rattle.std.specs.Prelude.{◌≡◌, ℕ, ◌<◌, length, All, Some, slice_get, slice_set, slice_index_or};
ghost use Rattle.match_workers.specs.declared.sessions.Session.{Session as Sitting};
ghost use Rattle.match_workers.specs.Served.{taken_from, CanBegin, IsServed};

use crate::sessions::Session;
use flux_defs::{Command, Desk, Gate, Line, List, Text};
use std::alloc::Global;
use std::sync::Wait;
use std::thread::Threads;
use std::{mem, thread};

/// How many sessions run at once; further ones wait for a thread.
const MOST_THREADS: usize = 64;

// The line at an index. Its number and an empty command stay in its place.
fn take_line(alloc: Global, lines: &mut List<Line>, at: usize) -> Line
    requires { at < length lines.old }
    ensures line { slice_get lines.old at ≡ Some result }
    ensures left { lines.new ≡ slice_set lines.old at (taken_from result) }
{
    let line = lines.items()[at].line;
    let why = Text::empty(alloc);
    let command = Command::Invalid { why };
    lines.put(at, Line { line, command })
}

// Hands in a session's lines in their order, up to the first for which no memory is left.
fn serve<R: Wait, D: Desk, G: Gate>(
    rt: &R,
    alloc: Global,
    session: &mut Session<D::Seat>,
    desk: &D,
    gate: &G,
)
    requires { CanBegin D.takes D.accepts desk.now session.old }
    ensures { IsServed D.takes D.seen D.mine D.share desk.now session.old session.new }
{
    for at in 0..session.lines.len() {
        let Line { line, command } = take_line(alloc, &mut session.lines, at);
        match desk.submit(rt, &mut session.seat, session.client, line, command, gate) {
            Ok(_) => session.done += 1,
            Err((command, _)) => {
                session.lines.put(at, Line { line, command });
                session.stopped = true;
                return;
            }
        }
    }
}

// The same of each session, each in a thread.
fn serve_each<R: Threads + Wait + Sync, D: Desk + Sync, G: Gate + Sync>(
    rt: &R,
    alloc: Global,
    sessions: &mut [Session<D::Seat>],
    desk: &D,
    gate: &G,
)
where
    D::Seat: Send,
    requires { All (CanBegin D.takes D.accepts desk.now) sessions.old }
    ensures { (i : ℕ) (s : Sitting (D.Seat)) → i < length sessions.old →
        IsServed D.takes D.seen D.mine D.share desk.now
        (slice_index_or sessions.old i s) (slice_index_or sessions.new i s) }
{
    thread::for_each_mut(
        rt,
        sessions,
        MOST_THREADS,
        &|_, session| serve(rt, alloc, session, desk, gate),
    );
}

/// Runs all sessions beside each other, each in a thread. Each hands in its lines in order, as they were at the call,
/// and stops where a submit finds no memory; it takes none of its own. It may wait.
pub fn serve_all<R: Threads + Wait + Sync, D: Desk + Sync, G: Gate + Sync>(
    rt: &R,
    alloc: Global,
    sessions: &mut List<Session<D::Seat>>,
    desk: &D,
    gate: &G,
)
where
    D::Seat: Send,
    requires { All (CanBegin D.takes D.accepts desk.now) sessions.old }
    ensures count { length sessions.new ≡ length sessions.old }
    ensures each { (i : ℕ) (s : Sitting (D.Seat)) → i < length sessions.old →
        IsServed D.takes D.seen D.mine D.share desk.now
        (slice_index_or sessions.old i s) (slice_index_or sessions.new i s) }
{
    let mut all = mem::replace(sessions, List::new(alloc)).into_vec();
    serve_each(rt, alloc, all.as_mut_slice(), desk, gate);
    let left = mem::replace(sessions, List::of_vec(all));
    left.into_vec().destroy_empty();
}
