//! Whole files by name.
ghost use Rattle.std.specs.Prelude.{◌≡◌, ℕ, Option};
ghost use Rattle.flux_io.specs.Stores.{HasFileCause, ReadsFile, Stored};

/// What a read of a file found.
#[derive(Clone, Copy, Debug, PartialEq, Eq)]
pub enum Got {
    /// The file, all of whose bytes were appended.
    Whole,
    /// No file of this name.
    Absent,
    /// A file that is longer than was allowed.
    Long,
}

/// Why a read of a file found nothing out.
#[derive(Clone, Copy, Debug, PartialEq, Eq)]
pub enum FileFail {
    /// The store failed, and its count of faults rose in that call.
    Failed,
    /// No memory was left for the bytes.
    Memory,
}

/// Whole files by name.
pub trait Files {
    /// The files, where the store tells them. No read changes them.
    ghost told: { Self → Option Stored };

    /// How often it has failed. The count never falls; at the last value of 64 bits it counts as risen.
    ghost faults: { Self → ℕ };

    /// How many names it refused as absent or too long. The count never falls; at the last value of 64 bits it
    /// counts as risen.
    ghost refused: { Self → ℕ };

    /// Appends to `into` all bytes of the file `name`, where they are at most `most`. After any answer but
    /// `Whole`, `into` has the bytes that it had.
    ///
    /// # Errors
    /// `Failed` comes only where the count of faults rose in this call, and `Memory` where no memory was left.
    fn read(&mut self, name: &str, into: &mut Vec<u8>, most: u64) -> Result<Got, FileFail>
        ensures file { ReadsFile (told self.old) name.now most into.old.items into.new.items result }
        ensures same { told self.new ≡ told self.old }
        ensures cause { HasFileCause (faults self.old) (faults self.new)
            (refused self.old) (refused self.new) result };
}
