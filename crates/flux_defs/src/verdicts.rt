//! What a search finds.
use crate::claims::Claim;
use crate::lists::List;

/// What the scheduler would reply, room for the claims left aside.
#[derive(Debug, Drop)]
pub enum Verdict {
    /// A start, in seconds, and the claims there.
    Found { start: u64, claims: List<Claim> },
    /// Nothing fits: now, or at any start before the horizon.
    NoFit,
    /// The graph without jobs could not serve it.
    Unsat,
    /// It could.
    Sat,
    /// It would end past the horizon.
    Long,
    /// Its id was accepted before.
    Known,
}
