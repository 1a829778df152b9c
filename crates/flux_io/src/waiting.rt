//! Streams that wait where the system's own say that they would have to.
ghost use Rattle.std.specs.Prelude.{◌≡◌, ◌≢◌, IfErr};
ghost use Rattle.std.specs.Io.{ReadsAtMost, WritesAtMost};
ghost use Rattle.std.specs.Io.KnownBytes.{Keeps, ReadConsumes, WriteAppends};
ghost use Rattle.std.specs.IoError.{error_kind};

use std::io::{ErrorKind, Read, Write};
use std::marker::Model;
use std::time::{Clock, Duration};
use std::{io, thread};

/// How many milliseconds a call rests before it is tried again.
const REST_MILLIS: u64 = 1;

/// A reader or a writer of the standard library whose calls wait: one that says it would have to wait, as those of
/// a pipe do that a parent left non-blocking, is tried again each millisecond for as long as it says so. What else
/// is answered is passed on, with what the inner stream tells of its bytes.
#[derive(Drop)]
pub struct Waiting<S: Drop, C: Clock + Drop> {
    stream: S,
    clock: C,
}

impl<S: Drop, C: Clock + Drop> Model for Waiting<S, C> {
    ghost Value = { S };

    ghost coded = { S.code };

    ghost view = { λ waiting. waiting.stream };
}

impl<S: Drop, C: Clock + Drop> Waiting<S, C> {
    /// The stream over this one, which rests by the clock.
    pub fn new(stream: S, clock: C) -> Waiting<S, C>
        ensures { result ≡ stream }
    {
        Waiting { stream, clock }
    }

    /// Rests before another try.
    fn rest(&self) {
        thread::sleep(&self.clock, Duration::from_millis(REST_MILLIS))
    }
}

/// After more tries than a machine lives to make.
fn tired() -> io::Error
    ensures { error_kind result ≡ ErrorKind.TimedOut }
{
    io::Error::from(ErrorKind::TimedOut)
}

impl<S: Read + Drop, C: Clock + Drop> Read for Waiting<S, C> {
    ghost remaining = { S.remaining };

    fn read(&mut self, buf: &mut [u8]) -> io::Result<usize>
        ensures bound { ReadsAtMost result buf.new }
        ensures bytes { ReadConsumes (S.remaining self.old) (S.remaining self.new) result buf.new }
        ensures waited { IfErr result (λ e. error_kind e ≢ ErrorKind.WouldBlock) }
    {
        'tries: for _ in 0..u64::MAX {
            match self.stream.read(buf) {
                Err(e) if e.kind() == ErrorKind::WouldBlock => self.rest(),
                done => return done,
            }
        }
        Err(tired())
    }
}

impl<S: Write + Drop, C: Clock + Drop> Write for Waiting<S, C> {
    ghost contents = { S.contents };

    fn write(&mut self, buf: &[u8]) -> io::Result<usize>
        ensures bound { WritesAtMost result buf.now }
        ensures bytes { WriteAppends (S.contents self.old) (S.contents self.new) result buf.now }
        ensures waited { IfErr result (λ e. error_kind e ≢ ErrorKind.WouldBlock) }
    {
        'tries: for _ in 0..u64::MAX {
            match self.stream.write(buf) {
                Err(e) if e.kind() == ErrorKind::WouldBlock => self.rest(),
                done => return done,
            }
        }
        Err(tired())
    }

    fn flush(&mut self) -> io::Result<()>
        ensures bytes { Keeps (S.contents self.old) (S.contents self.new) }
        ensures waited { IfErr result (λ e. error_kind e ≢ ErrorKind.WouldBlock) }
    {
        'tries: for _ in 0..u64::MAX {
            match self.stream.flush() {
                Err(e) if e.kind() == ErrorKind::WouldBlock => self.rest(),
                done => return done,
            }
        }
        Err(tired())
    }
}
