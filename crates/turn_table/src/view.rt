//! What a seat knows. It is for contracts: no value of these types is ever made.
use std::collections::LinkedList;

/// The shares of all seats together, and so the share of the last one.
pub const ALL_SHARES: u64 = 65_536;

/// Where a seat stands.
pub enum TurnPhase {
    /// It has no turn.
    Idle,
    /// It has the turn.
    Holding,
    /// It has the turn, and the history of the value in its hand is the history of all.
    Stored,
}

/// What a seat has seen, the positions of its entries, and its part of the right to close.
pub struct View<E, K> {
    /// The history as the seat has seen it.
    pub seen: LinkedList<E>,
    /// Histories that were seen before a join, since the last look at the count.
    pub earlier: LinkedList<LinkedList<E>>,
    /// The positions of the entries that the seat added, its joined seats' among them.
    pub mine: LinkedList<u64>,
    /// How many of the 65,536 shares it has; 0 exactly where it was joined to another.
    pub share: u64,
    /// Whether it has the turn.
    pub phase: TurnPhase,
    /// The setting of every value, and `None` exactly where it was joined to another.
    pub setting: Option<K>,
}
