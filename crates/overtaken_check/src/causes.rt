//! Causes.

/// Why a candidate may not be committed: what has happened since it was searched.
#[derive(Clone, Copy, Debug, PartialEq, Eq)]
pub enum Cause {
    /// The entry at this place cancelled a job.
    Freed { at: u64 },
    /// The entry at this place moved time on, past the start or the moment that was searched.
    Late { at: u64 },
    /// The entry at this place accepted a job that is in the way of the claim with this index.
    Taken { at: u64, claim: u64 },
}
