//! How much vertices serve of one own need of an ask, as matches over windows before have found it.
ghost use Rattle.std.specs.Prelude.{◌≡◌, ◌⊎◌, ◌*◌, ◌/◌, ◌<◌, ◌≤◌, [], length, take, drop, slice_get};
ghost use Rattle.std.specs.Prelude.{IfSome, IsTrue, Some, false};
ghost use Rattle.dfu_match.specs.declared.knowing.Row.{Row};
ghost use Rattle.dfu_match.specs.Rows.{AreLefts, AreNone, IsForgotten, IsLeft, IsNoted, IsPut, IsReachBefore, IsSetAt};

use crate::leaving::{Left, left_of};
use flux_defs::Need;
use std::alloc::Global;

/// The vertex serves at most so much of a need over each window that reaches over what is left of the one before from
/// `moment` on, unless that is all that is ever asked of one vertex.
#[derive(Clone, Copy)]
pub(crate) struct Row {
    pub(crate) vertex: u32,
    pub(crate) most: u64,
    pub(crate) moment: u64,
}

/// What matches of one ask over windows, each later than the one before, found of one of its own needs.
#[derive(Drop)]
pub struct Known {
    /// Whether anything is noted.
    notes: bool,
    /// Which of the ask's own needs it is.
    own: usize,
    /// A row for each vertex of the need before `end`, in their order.
    rows: Vec<Row>,
    /// Of each `BLOCK` rows, one after the other, what they leave together.
    blocks: Vec<Left>,
    end: u32,
}

/// Of how many rows together it is kept what they leave.
const BLOCK: usize = 16;

/// For how many rows there is room once there is one, so that most searches never move them.
const FIRST_ROWS: usize = 256;

impl Known {
    /// Nothing yet. It takes no memory.
    pub fn nothing(alloc: Global) -> Known
        ensures rows { result.rows.items ≡ [] }
        ensures blocks { result.blocks.items ≡ [] }
        ensures end { result.end ≡ 0 }
    {
        Known {
            notes: true,
            own: 0,
            rows: Vec::new(alloc),
            blocks: Vec::new(alloc),
            end: 0,
        }
    }

    /// Nothing, where nothing will be noted. It takes no memory.
    pub fn never(alloc: Global) -> Known
        ensures rows { result.rows.items ≡ [] }
        ensures blocks { result.blocks.items ≡ [] }
        ensures end { result.end ≡ 0 }
    {
        Known {
            notes: false,
            own: 0,
            rows: Vec::new(alloc),
            blocks: Vec::new(alloc),
            end: 0,
        }
    }

    /// Which of the ask's own needs it is.
    pub(crate) fn own(&self) -> usize
        ensures { result ≡ self.now.own }
    {
        self.own
    }

    /// The rows.
    pub(crate) fn rows(&self) -> &[Row]
        ensures { result.now ≡ self.now.rows.items }
    {
        self.rows.as_slice()
    }

    /// The row at the index.
    #[inline(always)]
    pub(crate) fn row_at(&self, at: usize) -> Option<Row>
        ensures { result ≡ slice_get self.now.rows.items at }
    {
        if at < self.rows.len() {
            Some(self.rows[at])
        } else {
            None
        }
    }

    /// Whether there is a row for each vertex of the need before this one.
    pub(crate) fn reaches(&self, end: u32) -> bool
        ensures { IsTrue result → self.now.end ≡ end }
    {
        self.end == end
    }

    /// Whether what is found of this own need is noted.
    #[inline(always)]
    pub(crate) fn notes_of(&self, own: usize) -> bool
        ensures { IsTrue result → self.now.own ≡ own }
    {
        self.notes && self.own == own
    }

    /// Whether the row at the index tells that the vertex serves nothing over windows that begin at this second.
    #[inline(always)]
    pub(crate) fn serves_none(&self, own: usize, at: usize, vertex: u32, from: u64) -> bool
        ensures { IsTrue result → (self.now.own ≡ own) × ((row : Row) × (slice_get self.now.rows.items at ≡ Some row)
            × (row.vertex ≡ vertex) × (row.most ≡ 0) × (from ≤ row.moment)) }
    {
        if self.own != own || at >= self.rows.len() {
            return false;
        }
        let row = self.rows[at];
        row.vertex == vertex && row.most == 0 && from <= row.moment
    }

    /// The index of the first row from this one on that doesn't tell that its vertex serves nothing over windows that
    /// begin at this second, and how many rows there are where each does.
    #[inline(always)]
    pub(crate) fn first_serving(&self, start: usize, from: u64) -> usize
        ensures later { start ≤ result }
        ensures none { AreNone from start result self.now.rows.items }
    {
        let rows = self.rows.as_slice();
        let mut at = start;
        'each: while at < rows.len() {
            let row = rows[at];
            if row.most != 0 || row.moment < from {
                return at;
            }
            at += 1;
        }
        at
    }

    /// The vertex of the row at the index, and where the rows reach to if it is past the last one: each vertex of the
    /// need before it has a row before that.
    #[inline(always)]
    pub(crate) fn reach_before(&self, at: usize) -> u32
        ensures { IsReachBefore self.now at result }
    {
        match self.row_at(at) {
            Some(row) => row.vertex,
            None => self.end,
        }
    }

    /// Puts the row where one of its vertex stands at the index, if the need is this one.
    #[inline(always)]
    pub(crate) fn put(&mut self, own: usize, at: usize, row: Row)
        ensures own { self.new.own ≡ self.old.own }
        ensures put { IsPut own row self.old self.new }
        ensures place { IsSetAt at self.old.rows.items self.new.rows.items }
        ensures end { self.new.end ≡ self.old.end }
    {
        if self.own != own || at >= self.rows.len() {
            return;
        }
        if self.rows[at].vertex != row.vertex {
            return;
        }
        self.rows[at] = row;
        self.forget(at / BLOCK);
    }

    /// What the rows of this place leave isn't known any more.
    #[inline(always)]
    fn forget(&mut self, block: usize)
        ensures own { self.new.own ≡ self.old.own }
        ensures rows { self.new.rows.items ≡ self.old.rows.items }
        ensures end { self.new.end ≡ self.old.end }
        ensures blocks { IsForgotten block self.old.blocks.items self.new.blocks.items }
        ensures length { length self.new.blocks.items ≡ length self.old.blocks.items }
    {
        if block < self.blocks.len() {
            self.blocks[block] = Left::unknown();
        }
    }

    /// What the rows leave together, windows that begin from this second on: it adds up anew only those that have
    /// changed or told until then.
    pub(crate) fn left(&mut self, need: &Need, from: u64) -> Left
        requires lefts { AreLefts need.now self.old.rows.items self.old.blocks.items }
        ensures left { IsLeft need.now self.new.rows.items result }
        ensures from { result.from ≡ from }
        ensures opens { from ≤ result.until }
        ensures own { self.new.own ≡ self.old.own }
        ensures rows { self.new.rows.items ≡ self.old.rows.items }
        ensures end { self.new.end ≡ self.old.end }
        ensures lefts { AreLefts need.now self.new.rows.items self.new.blocks.items }
    {
        let mut all = Left::none(from);
        for block in 0..self.blocks.len() {
            all = all.and(self.left_at(need, block, from));
        }
        all
    }

    /// What the rows of this place leave together, windows that begin at this second too: it adds them up anew where
    /// that isn't told.
    #[inline(always)]
    fn left_at(&mut self, need: &Need, block: usize, from: u64) -> Left
        requires within { block < length self.old.blocks.items }
        requires lefts { AreLefts need.now self.old.rows.items self.old.blocks.items }
        ensures left { IsLeft need.now (take 16 (drop (16 * block) self.new.rows.items)) result }
        ensures from { result.from ≤ from }
        ensures opens { from ≤ result.until }
        ensures own { self.new.own ≡ self.old.own }
        ensures rows { self.new.rows.items ≡ self.old.rows.items }
        ensures end { self.new.end ≡ self.old.end }
        ensures lefts { AreLefts need.now self.new.rows.items self.new.blocks.items }
        ensures length { length self.new.blocks.items ≡ length self.old.blocks.items }
    {
        let told = self.blocks[block];
        if told.tells(from) {
            return told;
        }
        let left = left_of(need, rows_of(self.rows.as_slice(), block), from);
        self.blocks[block] = left;
        left
    }

    /// The next row from the index `start` on that tells nothing of windows that begin at this second, and its index.
    /// Rows of a place of which none was found to tell nothing aren't looked at.
    #[inline(always)]
    pub(crate) fn next_old(&self, start: usize, from: u64) -> Option<(usize, Row)>
        ensures later { IfSome result (λ found. start ≤ found.0) }
        ensures there { IfSome result (λ found. slice_get self.now.rows.items found.0 ≡ Some found.1) }
        ensures old { IfSome result (λ found. found.1.moment < from) }
    {
        let rows = self.rows.as_slice();
        let mut at = start;
        'each: while at < rows.len() {
            if at % BLOCK == 0 && self.tells_all(at / BLOCK) {
                at = at.saturating_add(BLOCK);
            } else {
                let row = rows[at];
                if row.moment < from {
                    return Some((at, row));
                }
                at += 1;
            }
        }
        None
    }

    /// Whether no row of this place was found to tell nothing.
    #[inline(always)]
    fn tells_all(&self, block: usize) -> bool {
        block < self.blocks.len() && !self.blocks[block].old
    }

    /// The same; or adds it, where the rows reach to `from` and there is memory for it: then they reach to `past`.
    #[inline(always)]
    pub(crate) fn note(&mut self, own: usize, at: usize, from: u32, row: Row, past: u32)
        ensures own { self.new.own ≡ self.old.own }
        ensures noted { IsNoted own from past row self.old self.new }
    {
        if at < self.rows.len() {
            self.put(own, at, row);
            return;
        }
        if !self.notes_of(own) || self.end != from {
            return;
        }
        if !self.has_place() {
            return;
        }
        match self.rows.push(row) {
            Ok(()) => self.end = past,
            Err(_) => {}
        }
    }

    /// Makes a place for one row more, of which no sum is known: `false` where there is no memory for it.
    #[inline(always)]
    fn has_place(&mut self) -> bool
        ensures own { self.new.own ≡ self.old.own }
        ensures rows { self.new.rows.items ≡ self.old.rows.items }
        ensures end { self.new.end ≡ self.old.end }
        ensures blocks { IsTrue result
            → IsForgotten (length self.old.rows.items / 16) self.old.blocks.items self.new.blocks.items }
        ensures place { IsTrue result → length self.old.rows.items ≤ 16 * length self.old.blocks.items
            → length self.old.rows.items < 16 * length self.new.blocks.items }
        ensures none { result ≡ false → self.new.blocks.items ≡ self.old.blocks.items }
    {
        let block = self.rows.len() / BLOCK;
        if block < self.blocks.len() {
            self.forget(block);
            return true;
        }
        if block == 0 && self.rows.reserve(FIRST_ROWS).is_err() {
            return false;
        }
        match self.blocks.push(Left::unknown()) {
            Ok(()) => true,
            Err(_) => false,
        }
    }

    /// The rows that reach to `from` reach to `to`.
    #[inline(always)]
    pub(crate) fn pass(&mut self, own: usize, from: u32, to: u32)
        ensures own { self.new.own ≡ self.old.own }
        ensures rows { self.new.rows.items ≡ self.old.rows.items }
        ensures blocks { self.new.blocks.items ≡ self.old.blocks.items }
        ensures end { (self.new.end ≡ self.old.end)
            ⊎ ((self.old.end ≡ from) × (self.new.end ≡ to) × (self.old.own ≡ own)) }
    {
        if self.own == own && self.end == from {
            self.end = to;
        }
    }

    /// Goes over to this own need, of which nothing is known where it was another one.
    pub(crate) fn turn_to(&mut self, own: usize)
        ensures own { self.new.own ≡ own }
        ensures turned { ((self.old.own ≡ own) × (self.new.rows.items ≡ self.old.rows.items)
            × (self.new.end ≡ self.old.end) × (self.new.blocks.items ≡ self.old.blocks.items))
            ⊎ ((self.new.rows.items ≡ []) × (self.new.end ≡ 0)) }
    {
        if self.own == own {
            return;
        }
        self.own = own;
        self.rows.clear();
        self.blocks.clear();
        self.end = 0;
    }
}

/// The rows of this place.
fn rows_of(rows: &[Row], block: usize) -> &[Row]
    ensures { result.now ≡ take 16 (drop (16 * block) rows.now) }
{
    let start = block.saturating_mul(BLOCK).min(rows.len());
    let rest = &rows[start..];
    &rest[..rest.len().min(BLOCK)]
}
