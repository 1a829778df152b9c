//! A writer of the standard library as a sink.
ghost use Rattle.std.specs.Prelude.{◌≡◌, None};
ghost use Rattle.std.specs.Io.KnownBytes.{WriteAppends};
ghost use Rattle.flux_io.specs.Counts.{HasCause, count_after};
ghost use Rattle.flux_io.specs.Streams.{IsRoomAfter, TakesSome};

use crate::std_source::RETRIES;
use crate::streams::{Failed, Sink};
use std::io::{ErrorKind, Write};
use std::marker::Model;

/// A writer of the standard library. A write that a signal interrupts is tried again, up to 1,000 times, and one
/// that takes nothing of a piece is a fault. It tells what the writer tells of its bytes, which of a file, a pipe
/// or standard output is nothing, and no room.
#[derive(Drop)]
pub struct StdSink<W: Write + Drop> {
    inner: W,
    faults: u64,
}

impl<W: Write + Drop> Model for StdSink<W> {
    ghost use Rattle.flux_io.specs.Memory.{Counted, counted_code};

    ghost Value = { Counted W };

    ghost coded = { counted_code W.code };

    ghost view = { λ sink. record { inner = sink.inner; faults = sink.faults } };
}

impl<W: Write + Drop> StdSink<W> {
    /// The sink that writes to the writer.
    pub fn new(inner: W) -> StdSink<W>
        ensures { result ≡ record { inner = inner; faults = 0 } }
    {
        StdSink { inner, faults: 0 }
    }
}

impl<W: Write + Drop> Sink for StdSink<W> {
    ghost use Rattle.std.specs.Prelude.{None};

    ghost held = { λ sink. W.contents sink.inner };

    ghost room = { λ _. None };

    ghost faults = { λ sink. sink.faults };

    fn push(&mut self, bytes: &[u8]) -> Result<usize, Failed>
        ensures bound { TakesSome result bytes.now }
        ensures bytes { WriteAppends (W.contents self.old.inner) (W.contents self.new.inner) result bytes.now }
        ensures cause { HasCause self.old.faults self.new.faults result }
        ensures room { IsRoomAfter None None self.old.faults self.new.faults result bytes.now }
        ensures count { self.new.faults ≡ count_after self.old.faults result }
    {
        'tries: for _ in 0..RETRIES + 1 {
            match self.inner.write(bytes) {
                Ok(0) if !bytes.is_empty() => break,
                Ok(count) => return Ok(count),
                Err(e) => {
                    if e.kind() != ErrorKind::Interrupted {
                        break;
                    }
                }
            }
        }
        self.faults = self.faults.saturating_add(1);
        Err(Failed)
    }
}
