//! A reader of the standard library as a source.
ghost use Rattle.std.specs.Prelude.{◌≡◌};
ghost use Rattle.std.specs.Io.{ReadsAtMost};
ghost use Rattle.std.specs.Io.KnownBytes.{ReadConsumes};
ghost use Rattle.flux_io.specs.Counts.{HasCause, count_after};

use crate::streams::{Failed, Source};
use std::io::{ErrorKind, Read};
use std::marker::Model;

/// How often an interrupted call of the system is tried again.
pub(crate) const RETRIES: u32 = 1_000;

/// A reader of the standard library. A read that a signal interrupts is tried again, up to 1,000 times.
/// It tells what the reader tells of its bytes, which of a file, a pipe or standard input is nothing.
#[derive(Drop)]
pub struct StdSource<R: Read + Drop> {
    inner: R,
    faults: u64,
}

impl<R: Read + Drop> Model for StdSource<R> {
    ghost use Rattle.flux_io.specs.Memory.{Counted, counted_code};

    ghost Value = { Counted R };

    ghost coded = { counted_code R.code };

    ghost view = { λ source. record { inner = source.inner; faults = source.faults } };
}

impl<R: Read + Drop> StdSource<R> {
    /// The source of what the reader reads.
    pub fn new(inner: R) -> StdSource<R>
        ensures { result ≡ record { inner = inner; faults = 0 } }
    {
        StdSource { inner, faults: 0 }
    }
}

impl<R: Read + Drop> Source for StdSource<R> {
    ghost left = { λ source. R.remaining source.inner };

    ghost faults = { λ source. source.faults };

    fn pull(&mut self, into: &mut [u8]) -> Result<usize, Failed>
        ensures bound { ReadsAtMost result into.new }
        ensures bytes { ReadConsumes (R.remaining self.old.inner) (R.remaining self.new.inner) result into.new }
        ensures cause { HasCause self.old.faults self.new.faults result }
        ensures count { self.new.faults ≡ count_after self.old.faults result }
    {
        'tries: for _ in 0..RETRIES + 1 {
            match self.inner.read(into) {
                Ok(count) => return Ok(count),
                Err(e) => {
                    if e.kind() != ErrorKind::Interrupted {
                        break;
                    }
                }
            }
        }
        self.faults = self.faults.saturating_add(1);
        Err(Failed)
    }
}
