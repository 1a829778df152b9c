//! What rows leave their vertices to serve together, and over which windows.
ghost use Rattle.std.specs.Prelude.{◌≡◌, ℕ, ◌-◌, ◌^◌, ◌<◌, ◌≤◌, ◌++◌, ◌∷◌, [], List, IsTrue, Some, slice_get};
ghost use Rattle.std.specs.Prelude.{slice_set};
ghost use Rattle.flux_defs.specs.declared.requests.Need.{Need};
ghost use Rattle.dfu_match.specs.declared.knowing.Row.{Row};
ghost use Rattle.dfu_match.specs.Rows.{whole_of, IsLeft};

use crate::knowing::Row;
use crate::topmost::whole_of;
use flux_defs::Need;

/// What rows leave their vertices to serve together at most, over windows that begin from `from` to `until`. It is
/// `u64::MAX` where it may be more than that.
#[derive(Clone, Copy)]
pub(crate) struct Left {
    pub(crate) room: u64,
    pub(crate) from: u64,
    pub(crate) until: u64,
    /// Whether one of the rows may tell nothing of windows that begin at `from`.
    pub(crate) old: bool,
}

impl Left {
    /// What is known of no windows.
    pub(crate) fn unknown() -> Left
        ensures { result.until < result.from }
    {
        Left {
            room: u64::MAX,
            from: 1,
            until: 0,
            old: true,
        }
    }

    /// What no rows leave, windows that begin from this second on.
    pub(crate) fn none(from: u64) -> Left
        ensures left { (need : Need) → IsLeft need [] result }
        ensures from { result.from ≡ from }
        ensures opens { result.from ≤ result.until }
    {
        Left {
            room: 0,
            from,
            until: u64::MAX,
            old: false,
        }
    }

    /// Whether it tells of windows that begin at this second.
    #[inline(always)]
    pub(crate) fn tells(&self, from: u64) -> bool
        ensures { IsTrue result → (self.now.from ≤ from) × (from ≤ self.now.until) }
    {
        self.from <= from && from <= self.until
    }

    /// What the rows leave with one row more.
    #[inline(always)]
    pub(crate) fn with(self, need: &Need, row: &Row) -> Left
        ensures left { (rows : List Row) → IsLeft need.now rows self → IsLeft need.now (rows ++ row.now ∷ []) result }
        ensures from { result.from ≡ self.from }
        ensures opens { self.from ≤ self.until → result.from ≤ result.until }
    {
        let whole = whole_of(need);
        if row.moment < self.from {
            return Left {
                room: self.room.saturating_add(whole),
                from: self.from,
                until: self.until,
                old: true,
            };
        }
        let until = if row.most < whole {
            self.until.min(row.moment)
        } else {
            self.until
        };
        Left {
            room: self.room.saturating_add(row.most),
            from: self.from,
            until,
            old: self.old,
        }
    }

    /// What the rows leave without one that tells nothing of these windows.
    fn without(self, need: &Need) -> Left
        ensures from { result.from ≡ self.from }
        ensures until { result.until ≡ self.until }
        ensures room { self.room < 2 ^ 64 - 1 → result.room ≡ self.room - whole_of need.now }
        ensures most { 2 ^ 64 - 1 ≤ self.room → result.room ≡ 2 ^ 64 - 1 }
    {
        if self.room == u64::MAX {
            return self;
        }
        Left {
            room: self.room.saturating_sub(whole_of(need)),
            from: self.from,
            until: self.until,
            old: self.old,
        }
    }

    /// What the rows leave where one that told nothing of these windows has given way to another.
    pub(crate) fn renewed(self, need: &Need, row: &Row) -> Left
        ensures left { (rows : List Row) (i : ℕ) (was : Row) → slice_get rows i ≡ Some was → was.moment < self.from →
            IsLeft need.now rows self → IsLeft need.now (slice_set rows i row.now) result }
        ensures from { result.from ≡ self.from }
        ensures opens { self.from ≤ self.until → result.from ≤ result.until }
    {
        self.without(need).with(need, row)
    }

    /// What both leave together.
    #[inline(always)]
    pub(crate) fn and(self, other: Left) -> Left
        ensures left { (need : Need) (rows others : List Row) → IsLeft need rows self → IsLeft need others other →
            other.from ≤ self.from → IsLeft need (rows ++ others) result }
        ensures from { result.from ≡ self.from }
        ensures opens { self.from ≤ self.until → self.from ≤ other.until → result.from ≤ result.until }
    {
        Left {
            room: self.room.saturating_add(other.room),
            from: self.from,
            until: self.until.min(other.until),
            old: self.old || other.old,
        }
    }
}

/// What the rows leave, windows that begin from this second on.
pub(crate) fn left_of(need: &Need, rows: &[Row], from: u64) -> Left
    ensures left { IsLeft need.now rows.now result }
    ensures from { result.from ≡ from }
    ensures opens { result.from ≤ result.until }
{
    let mut left = Left::none(from);
    for row in rows {
        left = left.with(need, row);
    }
    left
}
