//! Sinks over memory that was reserved before.
ghost use Rattle.std.specs.Prelude.{◌≡◌, ◌<◌, ◌≤◌, ◌↔◌, [], ℕ, Contains, IfOk, IsErr, MatchResult, None, OnErr, OnOk};
ghost use Rattle.std.specs.Prelude.{Some, length, max, min};
ghost use Rattle.std.specs.Io.KnownBytes.{WriteAppends};
ghost use Rattle.flux_io.specs.Counts.{HasCause, next_count};
ghost use Rattle.flux_io.specs.Memory.{TakesPiece, next_call};
ghost use Rattle.flux_io.specs.Streams.{IsRoomAfter, TakesSome};

use crate::calls::Calls;
use crate::streams::{Failed, Sink};
use flux_defs::List;
use std::alloc::{AllocError, Global};
use std::marker::Model;

/// A sink over memory that was reserved, which fails only at a push past it. It tells how much is left.
#[derive(Debug, Drop)]
pub struct SureSink {
    bytes: Vec<u8>,
    room: usize,
    piece: usize,
    faults: u64,
}

impl Model for SureSink {
    ghost use Rattle.std.specs.Prelude.{◌+◌, ◌<◌, ◌≤◌, vec_capacity, vec_len};
    ghost use Rattle.flux_io.specs.Memory.{SinkState};

    ghost Value = { SinkState };

    ghost view = { λ sink. record {
      held = sink.bytes.items;
      room = sink.room;
      piece = sink.piece;
      faults = sink.faults;
    } };

    ghost invariant = { λ sink. (vec_len sink.bytes + sink.room ≤ vec_capacity sink.bytes)
        × (0 < sink.piece) };
}

impl SureSink {
    /// The sink that took nothing, has no room yet, and takes at most `piece` bytes in one call.
    pub fn new(alloc: Global, piece: usize) -> SureSink
        requires { 0 < piece }
        ensures { result ≡ record { held = []; room = 0; piece = piece; faults = 0 } }
    {
        SureSink {
            bytes: Vec::new(alloc),
            room: 0,
            piece,
            faults: 0,
        }
    }

    /// Takes memory for `bytes` bytes after those that it took, where it hasn't as much already.
    ///
    /// # Errors
    /// Where no memory is left the sink is as before.
    pub fn reserve(&mut self, bytes: usize) -> Result<(), AllocError>
        ensures ok { OnOk result (self.new ≡ record self.old { room = max self.old.room bytes }) }
        ensures err { OnErr result (self.new ≡ self.old) }
        ensures within { OnErr result (self.old.room < bytes) }
    {
        if bytes <= self.room {
            return Ok(());
        }
        self.bytes.reserve_exact(bytes)?;
        self.room = bytes;
        Ok(())
    }

    /// The bytes that it took.
    pub fn bytes(&self) -> &[u8]
        ensures { result.now ≡ self.now.held }
    {
        self.bytes.as_slice()
    }

    /// Counts a fault.
    pub(crate) fn count_fault(&mut self)
        ensures state { self.new ≡ record self.old { faults = next_count self.old.faults } }
        ensures later { self.old.faults ≤ self.new.faults }
    {
        self.faults = self.faults.saturating_add(1);
    }
}

impl Sink for SureSink {
    ghost use Rattle.std.specs.Prelude.{Some};

    ghost held = { λ sink. Some sink.held };

    ghost room = { λ sink. Some sink.room };

    ghost faults = { λ sink. sink.faults };

    fn push(&mut self, bytes: &[u8]) -> Result<usize, Failed>
        ensures bound { TakesSome result bytes.now }
        ensures bytes { WriteAppends (Some self.old.held) (Some self.new.held) result bytes.now }
        ensures cause { HasCause self.old.faults self.new.faults result }
        ensures room { IsRoomAfter (Some self.old.room) (Some self.new.room)
            self.old.faults self.new.faults result bytes.now }
        ensures takes { TakesPiece self.old self.new bytes.now result }
    {
        let count = bytes.len().min(self.piece);
        if count > self.room {
            self.count_fault();
            return Err(Failed);
        }
        self.room -= count;
        self.bytes.extend_from_slice(&bytes[..count]).unwrap();
        Ok(count)
    }
}

/// A sink over memory that was reserved, of which the calls fail whose numbers, from 1, are listed, and a push
/// past the memory. It tells no room.
#[derive(Debug, Drop)]
pub struct MemSink {
    sink: SureSink,
    calls: Calls,
}

impl Model for MemSink {
    ghost use Rattle.flux_io.specs.Memory.{FailingSink};

    ghost Value = { FailingSink };

    ghost view = { λ mem. record { sink = mem.sink; calls = mem.calls } };
}

impl MemSink {
    /// The sink that took nothing, has no room yet, and takes at most `piece` bytes in one call.
    pub fn new(alloc: Global, piece: usize, fails: List<u64>) -> MemSink
        requires { 0 < piece }
        ensures sink { result.sink ≡ record { held = []; room = 0; piece = piece; faults = 0 } }
        ensures calls { result.calls ≡ record { made = 0; fails = fails } }
    {
        MemSink {
            sink: SureSink::new(alloc, piece),
            calls: Calls::new(fails),
        }
    }

    /// Takes memory for `bytes` bytes after those that it took, where it hasn't as much already. It is no push.
    ///
    /// # Errors
    /// Where no memory is left the sink is as before.
    pub fn reserve(&mut self, bytes: usize) -> Result<(), AllocError>
        ensures ok { OnOk result
            (self.new.sink ≡ record self.old.sink { room = max self.old.sink.room bytes }) }
        ensures err { OnErr result (self.new.sink ≡ self.old.sink) }
        ensures within { OnErr result (self.old.sink.room < bytes) }
        ensures calls { self.new.calls ≡ self.old.calls }
    {
        self.sink.reserve(bytes)
    }

    /// The bytes that it took.
    pub fn bytes(&self) -> &[u8]
        ensures { result.now ≡ self.now.sink.held }
    {
        self.sink.bytes()
    }
}

impl Sink for MemSink {
    ghost use Rattle.std.specs.Prelude.{None, Some};

    ghost held = { λ mem. Some mem.sink.held };

    ghost room = { λ _. None };

    ghost faults = { λ mem. mem.sink.faults };

    fn push(&mut self, bytes: &[u8]) -> Result<usize, Failed>
        ensures bound { TakesSome result bytes.now }
        ensures bytes { WriteAppends (Some self.old.sink.held) (Some self.new.sink.held)
            result bytes.now }
        ensures cause { HasCause self.old.sink.faults self.new.sink.faults result }
        ensures room { IsRoomAfter None None self.old.sink.faults self.new.sink.faults result bytes.now }
        ensures listed { Contains self.old.calls.fails (next_count self.old.calls.made)
            → IsErr result
            × (self.new.sink ≡ record self.old.sink { faults = next_count self.old.sink.faults }) }
        ensures takes { ¬ Contains self.old.calls.fails (next_count self.old.calls.made)
            → TakesPiece self.old.sink self.new.sink bytes.now result }
        ensures calls { self.new.calls ≡ next_call self.old.calls }
    {
        if self.calls.next_fails() {
            self.sink.count_fault();
            return Err(Failed);
        }
        self.sink.push(bytes)
    }
}
