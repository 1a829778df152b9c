//! Bytes that come in and go out in pieces.
ghost use Rattle.std.specs.Prelude.{ℕ, List, Option};
ghost use Rattle.std.specs.Io.{ReadsAtMost};
ghost use Rattle.std.specs.Io.KnownBytes.{ReadConsumes, WriteAppends};
ghost use Rattle.flux_io.specs.Counts.{HasCause};
ghost use Rattle.flux_io.specs.Streams.{IsRoomAfter, TakesSome};

/// A pull or a push failed. The count of faults of the source or the sink rose in that call.
#[derive(Clone, Copy, Debug, PartialEq, Eq)]
pub struct Failed;

/// Bytes that come in pieces. No call takes memory.
pub trait Source {
    /// The bytes that are left, where the source tells them.
    ghost left: { Self → Option (List ℕ) };

    /// How often it has failed. The count never falls; at the last value of 64 bits it counts as risen.
    ghost faults: { Self → ℕ };

    /// Puts the next bytes at the front of `into`, at most as many as it holds, and answers their number.
    /// 0 for an `into` that isn't empty is the end: no told byte is left.
    ///
    /// # Errors
    /// `Failed` comes only where the count of faults rose in this call. The told bytes are then as before.
    fn pull(&mut self, into: &mut [u8]) -> Result<usize, Failed>
        ensures bound { ReadsAtMost result into.new }
        ensures bytes { ReadConsumes (left self.old) (left self.new) result into.new }
        ensures cause { HasCause (faults self.old) (faults self.new) result };
}

/// What takes bytes in pieces. No call takes memory.
pub trait Sink {
    /// The bytes that it took, where the sink tells them.
    ghost held: { Self → Option (List ℕ) };

    /// How many bytes more it takes for sure, where the sink tells this.
    ghost room: { Self → Option ℕ };

    /// How often it has failed. The count never falls; at the last value of 64 bits it counts as risen.
    ghost faults: { Self → ℕ };

    /// Takes a front of `bytes`, at least one byte of a piece that isn't empty, and answers its length.
    ///
    /// # Errors
    /// `Failed` comes only where the count of faults rose in this call, and never for a piece that is no longer
    /// than the told room. The told bytes and the room are then as before.
    fn push(&mut self, bytes: &[u8]) -> Result<usize, Failed>
        ensures bound { TakesSome result bytes.now }
        ensures bytes { WriteAppends (held self.old) (held self.new) result bytes.now }
        ensures cause { HasCause (faults self.old) (faults self.new) result }
        ensures room { IsRoomAfter (room self.old) (room self.new) (faults self.old) (faults self.new)
            result bytes.now };
}
