//! What may happen to a client's next line.

/// A client looks at the journal as it is, searches what it looked at, commits what it found, or has its line decided
/// at once.
#[derive(Clone, Copy, Debug, PartialEq, Eq)]
pub enum Event {
    Look { client: u32 },
    Search { client: u32 },
    Commit { client: u32 },
    Decide { client: u32 },
}
