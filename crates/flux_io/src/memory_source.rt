//! Sources over bytes in memory.
ghost use Rattle.std.specs.Prelude.{◌≡◌, ◌<◌, ◌↔◌, [], ◌++◌, Contains, IsErr, IsOk, IfOk, MatchResult, Some, drop};
ghost use Rattle.std.specs.Prelude.{length, min, take};
ghost use Rattle.std.specs.Io.{ReadsAtMost};
ghost use Rattle.std.specs.Io.KnownBytes.{ReadConsumes};
ghost use Rattle.flux_io.specs.Counts.{HasCause, count_after, next_count};
ghost use Rattle.flux_io.specs.Memory.{AreNextBytes, next_call};

use crate::calls::Calls;
use crate::streams::{Failed, Source};
use flux_defs::{List, Text};
use std::marker::Model;

/// A source over bytes in memory that never fails.
#[derive(Debug, Drop)]
pub struct SureSource {
    bytes: Text,
    at: usize,
    piece: usize,
}

impl Model for SureSource {
    ghost use Rattle.std.specs.Prelude.{◌<◌, ◌≤◌, drop, length};
    ghost use Rattle.flux_io.specs.Memory.{SourceState};

    ghost Value = { SourceState };

    ghost view = { λ source. record { left = drop source.at source.bytes; piece = source.piece } };

    ghost invariant = { λ source. (source.at ≤ length source.bytes) × (0 < source.piece) };
}

impl SureSource {
    /// The source of these bytes, which gives at most `piece` of them in one call.
    pub fn new(bytes: Text, piece: usize) -> SureSource
        requires { 0 < piece }
        ensures { result ≡ record { left = bytes; piece = piece } }
    {
        SureSource {
            bytes,
            at: 0,
            piece,
        }
    }
}

impl Source for SureSource {
    ghost use Rattle.std.specs.Prelude.{Some};

    ghost left = { λ source. Some source.left };

    ghost faults = { λ _. 0 };

    fn pull(&mut self, into: &mut [u8]) -> Result<usize, Failed>
        ensures bound { ReadsAtMost result into.new }
        ensures bytes { ReadConsumes (Some self.old.left) (Some self.new.left) result into.new }
        ensures cause { HasCause 0 0 result }
        ensures sure { IsOk result }
        ensures gives { IfOk result (λ count. AreNextBytes self.old self.new count into.old into.new) }
    {
        let rest = &self.bytes.bytes()[self.at..];
        let count = fill_front(into, rest, self.piece);
        self.at += count;
        Ok(count)
    }
}

/// Copies the front of `from` over the front of `into`: as many bytes as both have, but at most `piece`.
fn fill_front(into: &mut [u8], from: &[u8], piece: usize) -> usize
    requires { 0 < piece }
    ensures count { result ≡ min (length into.old) (min piece (length from.now)) }
    ensures bytes { into.new ≡ take result from.now ++ drop result into.old }
    ensures front { take result into.new ≡ take result from.now }
    ensures end { result ≡ 0 → 0 < length into.old → from.now ≡ [] }
{
    let count = into.len().min(piece.min(from.len()));
    into[..count].copy_from_slice(&from[..count]);
    count
}

/// A source over bytes in memory of which the calls fail whose numbers, from 1, are listed.
#[derive(Debug, Drop)]
pub struct MemSource {
    source: SureSource,
    calls: Calls,
    faults: u64,
}

impl Model for MemSource {
    ghost use Rattle.flux_io.specs.Memory.{FailingSource};

    ghost Value = { FailingSource };

    ghost view = { λ mem. record { source = mem.source; calls = mem.calls; faults = mem.faults } };
}

impl MemSource {
    /// The source of these bytes, which gives at most `piece` of them in one call.
    pub fn new(bytes: Text, piece: usize, fails: List<u64>) -> MemSource
        requires { 0 < piece }
        ensures source { result.source ≡ record { left = bytes; piece = piece } }
        ensures calls { result.calls ≡ record { made = 0; fails = fails } }
        ensures faults { result.faults ≡ 0 }
    {
        MemSource {
            source: SureSource::new(bytes, piece),
            calls: Calls::new(fails),
            faults: 0,
        }
    }
}

impl Source for MemSource {
    ghost use Rattle.std.specs.Prelude.{Some};

    ghost left = { λ mem. Some mem.source.left };

    ghost faults = { λ mem. mem.faults };

    fn pull(&mut self, into: &mut [u8]) -> Result<usize, Failed>
        ensures bound { ReadsAtMost result into.new }
        ensures bytes { ReadConsumes (Some self.old.source.left) (Some self.new.source.left)
            result into.new }
        ensures cause { HasCause self.old.faults self.new.faults result }
        ensures failed { IsErr result ↔ Contains self.old.calls.fails (next_count self.old.calls.made) }
        ensures gives { MatchResult result
            (λ count. AreNextBytes self.old.source self.new.source count into.old into.new)
            (λ _. (self.new.source ≡ self.old.source) × (into.new ≡ into.old)) }
        ensures calls { self.new.calls ≡ next_call self.old.calls }
        ensures faults { self.new.faults ≡ count_after self.old.faults result }
    {
        if self.calls.next_fails() {
            self.faults = self.faults.saturating_add(1);
            return Err(Failed);
        }
        self.source.pull(into)
    }
}
