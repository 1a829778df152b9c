//! Planners by vertices.
ghost use Rattle.std.specs.Prelude.{◌<◌};

use crate::groups::{FewerSpans, Fresh, Group, MoreSpans};
use crate::items::Item;
use crate::rows::Rows;
use flux_defs::{List, Steps, Window};
use planner_points::Planner;
use snapshot_store::Pages;
use std::alloc::{AllocError, Global};
use std::sync::ledger::Ledger;

/// A planner for each place of each vertex, by the vertices' numbers; those of sixteen vertices stand together in one
/// group. A call that changes something does so in place where no others share it, and where no memory is left nothing
/// is known of the planners any more; `share` keeps the old ones.
#[derive(Drop)]
pub struct VertexPlanners<P: Planner + Drop> {
    groups: Pages<Group<P>>,
    spare: Spare,
}

/// How many vertices more the last group has room for.
#[derive(Drop)]
pub struct Spare {
    count: u64,
    ghost few: { count < 16 },
}

impl<P: Planner + Drop> VertexPlanners<P> {
    ghost use Rattle.std.specs.Prelude.{◌≡◌, ◌≢◌, ℕ, ◌+◌, ◌*◌, ◌≤◌, List, [], ◌∷◌, ◌++◌, ◌<◌, length};
    ghost use Rattle.std.specs.Prelude.{slice_get, Some, IfOk, OnOk, OnErr, ◌⊎◌};
    ghost use Rattle.flux_defs.specs.Digits.{dig};
    ghost use Rattle.planner_points.specs.Work.{renew_cost};
    ghost use Rattle.vertex_planners.specs.Groups.{AreFresh};
    ghost use Rattle.vertex_planners.specs.Lists.{items_of, AreWide};
    ghost use Rattle.vertex_planners.specs.Kept.{Gains, Loses, HaveRoom, HaveSpans, AtRow, RoomAt, SpansAt, AtPlaces};
    ghost use Rattle.vertex_planners.specs.Rows.{places_of, count_all, count_some, HaveKeysBelow};
    ghost use Rattle.vertex_planners.specs.Work.{change_most, CostWithin};

    /// No vertices. It takes no memory.
    pub fn empty() -> VertexPlanners<P>
        ensures { items_of result ≡ [] }
    {
        VertexPlanners {
            groups: Pages::empty(),
            spare: Spare { count: 0 },
        }
    }

    /// One vertex more, behind the others, with a planner without spans for each of these totals, one a place. Where
    /// the vertex comes into a group with others, another number of totals than they have is answered as want of
    /// memory. Where no memory is left nothing is known of the planners, but there are as many vertices as before.
    pub fn push<L: Ledger>(
        &mut self,
        alloc: Global,
        totals: &[u64],
        horizon: u64,
        steps: &mut Steps<L>,
    ) -> Result<(), AllocError>
        ensures ok { OnOk result ((item : List P) × (items_of self.new ≡ items_of self.old ++ item ∷ [])
            × AreFresh P.total_of P.stands_for totals.now item) }
        ensures len { OnErr result (length (items_of self.new) ≡ length (items_of self.old)) }
    {
        if self.spare.count == 0 || self.groups.is_empty() {
            return self.push_group(alloc, totals, horizon, steps);
        }
        self.push_beside(alloc, totals, horizon, steps)
    }

    /// The vertex begins a group.
    fn push_group<L: Ledger>(
        &mut self,
        alloc: Global,
        totals: &[u64],
        horizon: u64,
        steps: &mut Steps<L>,
    ) -> Result<(), AllocError>
        requires { (self.old.spare.count ≡ 0) ⊎ (length self.old.groups ≡ 0) }
        ensures ok { OnOk result ((item : List P) × (items_of self.new ≡ items_of self.old ++ item ∷ [])
            × AreFresh P.total_of P.stands_for totals.now item) }
        ensures len { OnErr result (length (items_of self.new) ≡ length (items_of self.old)) }
    {
        let group = Group::of_totals(alloc, totals, horizon)?;
        match self.groups.push(alloc, group, steps) {
            Ok(()) => {
                self.spare = Spare { count: 15 };
                return Ok(());
            }
            Err((_, refused)) => return Err(refused),
        }
    }

    /// The vertex stands in the last group, beside others.
    fn push_beside<L: Ledger>(
        &mut self,
        alloc: Global,
        totals: &[u64],
        horizon: u64,
        steps: &mut Steps<L>,
    ) -> Result<(), AllocError>
        requires spare { self.old.spare.count ≢ 0 }
        requires groups { length self.old.groups ≢ 0 }
        ensures ok { OnOk result ((item : List P) × (items_of self.new ≡ items_of self.old ++ item ∷ [])
            × AreFresh P.total_of P.stands_for totals.now item) }
        ensures len { OnErr result (length (items_of self.new) ≡ length (items_of self.old)) }
    {
        let spare = self.spare.count;
        let last = self.groups.len() - 1;
        let change = Fresh {
            slot: 16 - spare as usize,
            totals,
            horizon,
        };
        match self.groups.change(alloc, last, &change, steps) {
            Ok(()) => {
                self.spare = Spare { count: spare - 1 };
                return Ok(());
            }
            Err(refused) => return Err(refused),
        }
    }

    /// The vertex's planners. It takes no memory.
    #[inline(always)]
    pub fn at<'a, L: Ledger>(&'a self, vertex: u32, steps: &mut Steps<L>) -> Item<'a, P>
        requires { vertex < length (items_of self.now) }
        ensures item { slice_get (items_of self.now) vertex ≡ Some result }
        ensures some_work { steps.old < steps.new }
        ensures work { steps.new ≤ steps.old + (2 * dig (length (items_of self.now) + 1) + 1) }
    {
        steps.tick();
        match self.groups.get(vertex as u64 / 16, steps) {
            Some(group) => return group.item(vertex as usize % 16),
            None => unreachable!(),
        }
    }

    /// The same planners once more, without a copy.
    pub fn share(&self) -> Result<VertexPlanners<P>, AllocError>
        ensures { IfOk result (λ all. items_of all ≡ items_of self.now) }
    {
        let groups = self.groups.snap()?;
        Ok(VertexPlanners {
            groups,
            spare: Spare {
                count: self.spare.count,
            },
        })
    }

    /// Each planner gains a span over the window of its vertex's number at its place, if that isn't 0. Each that does
    /// is made ready before for questions from that second on.
    pub fn gain<L: Ledger>(
        &mut self,
        alloc: Global,
        moment: u64,
        window: Window,
        rows: Rows,
        steps: &mut Steps<L>,
    ) -> Result<(), AllocError>
        requires window { window.from < window.to }
        requires places { AreWide (length (places_of rows)) (items_of self.old) }
        requires keys { HaveKeysBelow (length (items_of self.old)) (places_of rows) }
        requires room { RoomAt P.total_of P.stands_for window (places_of rows) (items_of self.old) }
        ensures len { OnOk result (length (items_of self.new) ≡ length (items_of self.old)) }
        ensures places { OnOk result (AreWide (length (places_of rows)) (items_of self.new)) }
        ensures gains { OnOk result
            (AtPlaces (Gains P.total_of P.stands_for window) (places_of rows) (items_of self.old) (items_of self.new)) }
        ensures work { (most : ℕ) → CostWithin (renew_cost P.settle_cost P.change_cost) most (items_of self.old) →
            steps.new ≤ steps.old + count_all (places_of rows) * change_most (length (items_of self.old)) most }
    {
        let mut left = rows;
        let mut row = List::of_vec(Vec::with_capacity(alloc, left.places.len())?);
        while let Some(vertex) = left.pop(&mut row)? {
            self.gain_at(alloc, vertex, moment, window, &row, steps)?;
        }
        Ok(())
    }

    /// Each planner loses a span over the window of its vertex's number at its place, if that isn't 0. Each that does
    /// is made ready before for questions from that second on.
    pub fn lose<L: Ledger>(
        &mut self,
        alloc: Global,
        moment: u64,
        window: Window,
        rows: Rows,
        steps: &mut Steps<L>,
    ) -> Result<(), AllocError>
        requires window { window.from < window.to }
        requires places { AreWide (length (places_of rows)) (items_of self.old) }
        requires keys { HaveKeysBelow (length (items_of self.old)) (places_of rows) }
        requires span { SpansAt P.stands_for window (places_of rows) (items_of self.old) }
        ensures len { OnOk result (length (items_of self.new) ≡ length (items_of self.old)) }
        ensures places { OnOk result (AreWide (length (places_of rows)) (items_of self.new)) }
        ensures loses { OnOk result
            (AtPlaces (Loses P.total_of P.stands_for window) (places_of rows) (items_of self.old) (items_of self.new)) }
        ensures work { (most : ℕ) → CostWithin (renew_cost P.settle_cost P.change_cost) most (items_of self.old) →
            steps.new ≤ steps.old + count_all (places_of rows) * change_most (length (items_of self.old)) most }
    {
        let mut left = rows;
        let mut row = List::of_vec(Vec::with_capacity(alloc, left.places.len())?);
        while let Some(vertex) = left.pop(&mut row)? {
            self.lose_at(alloc, vertex, moment, window, &row, steps)?;
        }
        Ok(())
    }

    /// The planners of one vertex gain spans, where they stand.
    fn gain_at<L: Ledger>(
        &mut self,
        alloc: Global,
        vertex: u32,
        moment: u64,
        window: Window,
        row: &List<u64>,
        steps: &mut Steps<L>,
    ) -> Result<(), AllocError>
        requires vertex { vertex < length (items_of self.old) }
        requires window { window.from < window.to }
        requires places { (x : List P) → slice_get (items_of self.old) vertex ≡ Some x → length row.now ≡ length x }
        requires room { (x : List P) →
            slice_get (items_of self.old) vertex ≡ Some x → HaveRoom P.total_of P.stands_for window row.now x }
        ensures len { length (items_of self.new) ≡ length (items_of self.old) }
        ensures here { OnOk result ((x y : List P) →
            slice_get (items_of self.old) vertex ≡ Some x → slice_get (items_of self.new) vertex ≡ Some y →
            AtRow (Gains P.total_of P.stands_for window) row.now x y) }
        ensures others { OnOk result
            ((u : ℕ) → u ≢ vertex → slice_get (items_of self.new) u ≡ slice_get (items_of self.old) u) }
        ensures work { (most : ℕ) → ((x : List P) (k : ℕ) (p : P) → slice_get (items_of self.old) vertex ≡ Some x →
            slice_get x k ≡ Some p → renew_cost P.settle_cost P.change_cost p ≤ most) →
            steps.new ≤ steps.old + (2 * dig (length (items_of self.old) + 1) + count_some row.now * most) }
    {
        let change = MoreSpans {
            slot: vertex as usize % 16,
            moment,
            window,
            row,
        };
        self.groups
            .change(alloc, vertex as u64 / 16, &change, steps)?;
        Ok(())
    }

    /// The planners of one vertex lose spans, where they stand.
    fn lose_at<L: Ledger>(
        &mut self,
        alloc: Global,
        vertex: u32,
        moment: u64,
        window: Window,
        row: &List<u64>,
        steps: &mut Steps<L>,
    ) -> Result<(), AllocError>
        requires vertex { vertex < length (items_of self.old) }
        requires window { window.from < window.to }
        requires places { (x : List P) → slice_get (items_of self.old) vertex ≡ Some x → length row.now ≡ length x }
        requires span { (x : List P) →
            slice_get (items_of self.old) vertex ≡ Some x → HaveSpans P.stands_for window row.now x }
        ensures len { length (items_of self.new) ≡ length (items_of self.old) }
        ensures here { OnOk result ((x y : List P) →
            slice_get (items_of self.old) vertex ≡ Some x → slice_get (items_of self.new) vertex ≡ Some y →
            AtRow (Loses P.total_of P.stands_for window) row.now x y) }
        ensures others { OnOk result
            ((u : ℕ) → u ≢ vertex → slice_get (items_of self.new) u ≡ slice_get (items_of self.old) u) }
        ensures work { (most : ℕ) → ((x : List P) (k : ℕ) (p : P) → slice_get (items_of self.old) vertex ≡ Some x →
            slice_get x k ≡ Some p → renew_cost P.settle_cost P.change_cost p ≤ most) →
            steps.new ≤ steps.old + (2 * dig (length (items_of self.old) + 1) + count_some row.now * most) }
    {
        let change = FewerSpans {
            slot: vertex as usize % 16,
            moment,
            window,
            row,
        };
        self.groups
            .change(alloc, vertex as u64 / 16, &change, steps)?;
        Ok(())
    }
}
