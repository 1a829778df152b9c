//! The planners of sixteen vertices.
ghost use Rattle.std.specs.Prelude.{◌≡◌, ◌≢◌, ℕ, ◌+◌, ◌*◌, ◌<◌, ◌≤◌, List, length, slice_get, Some, IfOk, OnOk};
ghost use Rattle.planner_points.specs.Work.{renew_cost};
ghost use Rattle.vertex_planners.specs.Groups.{sixteenths, AreFresh};
ghost use Rattle.vertex_planners.specs.Kept.{Gains, Loses, HasRoomFor, HasSpanOf, HaveRoom, HaveSpans, AtSlot};
ghost use Rattle.vertex_planners.specs.Rows.{count_some};

use crate::items::{Item, index_of};
use flux_defs::{List, Steps, Window};
use node_store::Share;
use planner_points::{Planner, renew_with, renew_without};
use snapshot_store::Change;
use std::alloc::{AllocError, Global};
use std::marker::Model;
use std::sync::ledger::Ledger;

/// The planners of sixteen vertices side by side: first those of the first place, vertex by vertex, then those of the
/// next place, and so on. Contracts see the list of them. A call that adds or removes spans changes the planners where
/// they stand; where no memory is left nothing is known of them any more. `share` gives a group that has the same
/// planners and keeps them; it takes its memory from `alloc`.
#[derive(Drop)]
pub(crate) struct Group<P: Planner + Drop> {
    alloc: Global,
    planners: List<P>,
}

impl<P: Planner + Drop> Model for Group<P> {
    ghost use Rattle.std.specs.Prelude.{List};

    ghost Value = { List P };

    ghost view = { λ group. group.planners };
}

impl<P: Planner + Drop> Share for Group<P> {
    /// A list of its own, which shares each planner.
    fn share(&self) -> Result<Group<P>, AllocError> {
        let room = Vec::with_capacity(self.alloc, self.planners.len())?;
        let mut planners = List::of_vec(room);
        for planner in self.planners.items() {
            let same = planner.share()?;
            match planners.push(same) {
                Ok(()) => {}
                Err((_, refused)) => return Err(refused),
            }
        }
        Ok(Group {
            alloc: self.alloc,
            planners,
        })
    }
}

impl<P: Planner + Drop> Group<P> {
    /// A planner without spans for each of these totals at the first vertex, and planners of nothing at the others.
    /// More totals than 2^60 - 1 are answered as want of memory.
    pub(crate) fn of_totals(
        alloc: Global,
        totals: &[u64],
        horizon: u64,
    ) -> Result<Group<P>, AllocError>
        ensures { IfOk result (λ group. AreFresh P.total_of P.stands_for totals.now (sixteenths group 0)) }
    {
        let Some(count) = totals.len().checked_mul(16) else {
            return Err(AllocError);
        };
        let room = Vec::with_capacity(alloc, count)?;
        let mut planners = List::of_vec(room);
        for _place in 0..count {
            let planner = P::empty(alloc, 0, horizon)?;
            match planners.push(planner) {
                Ok(()) => {}
                Err((_, refused)) => return Err(refused),
            }
        }
        let mut group = Group { alloc, planners };
        group.set(alloc, 0, totals, horizon)?;
        Ok(group)
    }

    /// The planners of the vertex at this place among the sixteen. It takes no memory.
    #[inline(always)]
    pub(crate) fn item<'a>(&'a self, slot: usize) -> Item<'a, P>
        ensures { result ≡ sixteenths self.now slot }
    {
        Item {
            planners: &self.planners,
            slot,
        }
    }

    /// A planner without spans for each of these totals at the vertex at this place among the sixteen. Another number
    /// of totals than the group has places is answered as want of memory.
    fn set(
        &mut self,
        alloc: Global,
        slot: usize,
        totals: &[u64],
        horizon: u64,
    ) -> Result<(), AllocError>
        requires slot { slot < 16 }
        ensures fresh { OnOk result (AreFresh P.total_of P.stands_for totals.now (sixteenths self.new slot)) }
        ensures others { OnOk result
            ((other : ℕ) → other < 16 → other ≢ slot → sixteenths self.new other ≡ sixteenths self.old other) }
    {
        let Some(count) = totals.len().checked_mul(16) else {
            return Err(AllocError);
        };
        if count != self.planners.len() {
            return Err(AllocError);
        }
        for place in 0..totals.len() {
            let planner = P::empty(alloc, totals[place], horizon)?;
            let index = index_of(&self.planners, slot, place);
            let _before = self.planners.put(index, planner);
        }
        Ok(())
    }

    /// Each planner of the vertex at this place among the sixteen gains a span over the window of its place's number,
    /// if that isn't 0, made ready before for questions from that second on.
    pub(crate) fn gain<L: Ledger>(
        &mut self,
        alloc: Global,
        slot: usize,
        moment: u64,
        window: Window,
        row: &List<u64>,
        steps: &mut Steps<L>,
    ) -> Result<(), AllocError>
        requires slot { slot < 16 }
        requires places { length row.now ≡ length (sixteenths self.old slot) }
        requires window { window.from < window.to }
        requires room { HaveRoom P.total_of P.stands_for window row.now (sixteenths self.old slot) }
        ensures gains { OnOk result (AtSlot (Gains P.total_of P.stands_for window) row.now slot self.old self.new) }
        ensures work { (most : ℕ) → ((k : ℕ) (p : P) → slice_get (sixteenths self.old slot) k ≡ Some p →
            renew_cost P.settle_cost P.change_cost p ≤ most) → steps.new ≤ steps.old + count_some row.now * most }
    {
        for place in 0..row.len() {
            let Some(number) = row.get(place) else {
                unreachable!()
            };
            let index = index_of(&self.planners, slot, place);
            gain(
                alloc,
                &mut self.planners,
                index,
                moment,
                window,
                *number,
                steps,
            )?;
        }
        Ok(())
    }

    /// Each planner of the vertex at this place among the sixteen loses a span over the window of its place's number,
    /// if that isn't 0, made ready before for questions from that second on.
    pub(crate) fn lose<L: Ledger>(
        &mut self,
        alloc: Global,
        slot: usize,
        moment: u64,
        window: Window,
        row: &List<u64>,
        steps: &mut Steps<L>,
    ) -> Result<(), AllocError>
        requires slot { slot < 16 }
        requires places { length row.now ≡ length (sixteenths self.old slot) }
        requires window { window.from < window.to }
        requires span { HaveSpans P.stands_for window row.now (sixteenths self.old slot) }
        ensures loses { OnOk result (AtSlot (Loses P.total_of P.stands_for window) row.now slot self.old self.new) }
        ensures work { (most : ℕ) → ((k : ℕ) (p : P) → slice_get (sixteenths self.old slot) k ≡ Some p →
            renew_cost P.settle_cost P.change_cost p ≤ most) → steps.new ≤ steps.old + count_some row.now * most }
    {
        for place in 0..row.len() {
            let Some(number) = row.get(place) else {
                unreachable!()
            };
            let index = index_of(&self.planners, slot, place);
            lose(
                alloc,
                &mut self.planners,
                index,
                moment,
                window,
                *number,
                steps,
            )?;
        }
        Ok(())
    }
}

/// The vertex at a place among the sixteen gets planners without spans.
#[derive(Drop)]
pub(crate) struct Fresh<'a> {
    pub(crate) slot: usize,
    pub(crate) totals: &'a [u64],
    pub(crate) horizon: u64,
}

impl<'a, P: Planner + Drop> Change<Group<P>> for Fresh<'a> {
    ghost use Rattle.std.specs.Prelude.{◌≢◌};
    ghost use Rattle.vertex_planners.specs.Groups.{sixteenths, AreFresh};

    ghost fits = { λ change group. change.slot < 16 };

    ghost makes = { λ change old new.
        AreFresh P.total_of P.stands_for change.totals.now (sixteenths new change.slot)
        × ((other : ℕ) → other < 16 → other ≢ change.slot → sixteenths new other ≡ sixteenths old other) };

    ghost takes = { λ change group most. Unit {0} };

    fn make<L: Ledger>(
        &self,
        alloc: Global,
        group: &mut Group<P>,
        _steps: &mut Steps<L>,
    ) -> Result<(), AllocError> {
        group.set(alloc, self.slot, self.totals, self.horizon)
    }
}

/// The planners of the vertex at a place among the sixteen gain spans of the numbers of a row.
#[derive(Drop)]
pub(crate) struct MoreSpans<'a> {
    pub(crate) slot: usize,
    pub(crate) moment: u64,
    pub(crate) window: Window,
    pub(crate) row: &'a List<u64>,
}

impl<'a, P: Planner + Drop> Change<Group<P>> for MoreSpans<'a> {
    ghost use Rattle.vertex_planners.specs.Groups.{sixteenths};
    ghost use Rattle.vertex_planners.specs.Kept.{HaveRoom, Gains, AtSlot, IsEnough};

    ghost fits = { λ change group. (change.slot < 16) × (length change.row.now ≡ length (sixteenths group change.slot))
        × (change.window.from < change.window.to)
        × HaveRoom P.total_of P.stands_for change.window change.row.now (sixteenths group change.slot) };

    ghost makes = { λ change old new.
        AtSlot (Gains P.total_of P.stands_for change.window) change.row.now change.slot old new };

    ghost takes = { λ change group most.
        IsEnough (renew_cost P.settle_cost P.change_cost) change.row.now (sixteenths group change.slot) most };

    fn make<L: Ledger>(
        &self,
        alloc: Global,
        group: &mut Group<P>,
        steps: &mut Steps<L>,
    ) -> Result<(), AllocError> {
        group.gain(alloc, self.slot, self.moment, self.window, self.row, steps)
    }
}

/// The planners of the vertex at a place among the sixteen lose spans of the numbers of a row.
#[derive(Drop)]
pub(crate) struct FewerSpans<'a> {
    pub(crate) slot: usize,
    pub(crate) moment: u64,
    pub(crate) window: Window,
    pub(crate) row: &'a List<u64>,
}

impl<'a, P: Planner + Drop> Change<Group<P>> for FewerSpans<'a> {
    ghost use Rattle.vertex_planners.specs.Groups.{sixteenths};
    ghost use Rattle.vertex_planners.specs.Kept.{HaveSpans, Loses, AtSlot, IsEnough};

    ghost fits = { λ change group. (change.slot < 16) × (length change.row.now ≡ length (sixteenths group change.slot))
        × (change.window.from < change.window.to)
        × HaveSpans P.stands_for change.window change.row.now (sixteenths group change.slot) };

    ghost makes = { λ change old new.
        AtSlot (Loses P.total_of P.stands_for change.window) change.row.now change.slot old new };

    ghost takes = { λ change group most.
        IsEnough (renew_cost P.settle_cost P.change_cost) change.row.now (sixteenths group change.slot) most };

    fn make<L: Ledger>(
        &self,
        alloc: Global,
        group: &mut Group<P>,
        steps: &mut Steps<L>,
    ) -> Result<(), AllocError> {
        group.lose(alloc, self.slot, self.moment, self.window, self.row, steps)
    }
}

/// The planner at the index gains a span, made ready before for questions from that second on; it stays as it is where
/// the quantity is 0.
fn gain<P: Planner + Drop, L: Ledger>(
    alloc: Global,
    planners: &mut List<P>,
    index: usize,
    moment: u64,
    window: Window,
    quantity: u64,
    steps: &mut Steps<L>,
) -> Result<(), AllocError>
    requires index { index < length planners.old }
    requires window { window.from < window.to }
    requires room { (p : P) → slice_get planners.old index ≡ Some p →
        HasRoomFor P.total_of P.stands_for window quantity p }
    ensures len { OnOk result (length planners.new ≡ length planners.old) }
    ensures here { OnOk result
        ((p r : P) → slice_get planners.old index ≡ Some p → slice_get planners.new index ≡ Some r →
        Gains P.total_of P.stands_for window quantity p r) }
    ensures others { OnOk result
        ((k : ℕ) → k ≢ index → slice_get planners.new k ≡ slice_get planners.old k) }
    ensures none { quantity ≡ 0 → steps.new ≤ steps.old }
    ensures work { (p : P) → slice_get planners.old index ≡ Some p →
        steps.new ≤ steps.old + renew_cost P.settle_cost P.change_cost p }
{
    if quantity == 0 {
        return Ok(());
    }
    let Some(planner) = planners.get_mut(index) else {
        unreachable!()
    };
    renew_with(planner, alloc, moment, window, quantity, steps)
}

/// The planner at the index loses a span, made ready before for questions from that second on; it stays as it is where
/// the quantity is 0.
fn lose<P: Planner + Drop, L: Ledger>(
    alloc: Global,
    planners: &mut List<P>,
    index: usize,
    moment: u64,
    window: Window,
    quantity: u64,
    steps: &mut Steps<L>,
) -> Result<(), AllocError>
    requires index { index < length planners.old }
    requires window { window.from < window.to }
    requires span { (p : P) → slice_get planners.old index ≡ Some p → HasSpanOf P.stands_for window quantity p }
    ensures len { OnOk result (length planners.new ≡ length planners.old) }
    ensures here { OnOk result
        ((p r : P) → slice_get planners.old index ≡ Some p → slice_get planners.new index ≡ Some r →
        Loses P.total_of P.stands_for window quantity p r) }
    ensures others { OnOk result
        ((k : ℕ) → k ≢ index → slice_get planners.new k ≡ slice_get planners.old k) }
    ensures none { quantity ≡ 0 → steps.new ≤ steps.old }
    ensures work { (p : P) → slice_get planners.old index ≡ Some p →
        steps.new ≤ steps.old + renew_cost P.settle_cost P.change_cost p }
{
    if quantity == 0 {
        return Ok(());
    }
    let Some(planner) = planners.get_mut(index) else {
        unreachable!()
    };
    renew_without(planner, alloc, moment, window, quantity, steps)
}
