//! The points of a planner, of which those that are past stand apart.
ghost use Rattle.std.specs.Prelude.{◌≡◌, ◌↔◌, IsTrue, ◌+◌, ◌*◌, ◌<◌, ◌≤◌, List, [], ◌++◌, length, Some};
ghost use Rattle.std.specs.Prelude.{slice_get, IfOk, IfSome, IfNone, OnOk};
ghost use Rattle.flux_defs.specs.Digits.{dig};
ghost use Rattle.balanced_tree.specs.Edits.{made};
ghost use Rattle.planner_min_tree.specs.declared.points.Point.{Point};
ghost use Rattle.planner_min_tree.specs.Chunks.{flat, AreFilled};
ghost use Rattle.planner_min_tree.specs.Points.{Runs, lowest_in, first_from, value_at, rise_after, low_end, HasPlace};
ghost use Rattle.planner_min_tree.specs.Marks.{changed, StaysLate};
ghost use Rattle.planner_min_tree.specs.Nears.{GoOn};

use crate::changing::{change_once, change_twice, edit};
use crate::chunks::{Chunk, PAST_POINTS};
use crate::marking::Change;
use crate::near::{NEXT, Stretch};
use crate::points::{Dip, Point};
use crate::walks::{self, Side};
use arrayvec::ArrayVec;
use balanced_tree::{Edit, Tree};
use flux_defs::Steps;
use node_store::Share;
use std::alloc::{AllocError, Global};
use std::marker::Model;
use std::sync::ledger::Ledger;

/// The points of a planner in two trees: those that are past, and behind them those that are to come. Contracts see the
/// list of all of them. A call that asks no second before the last that is past goes over what is past without a step.
#[derive(Drop)]
pub struct Timeline {
    past: Tree<Chunk, Dip>,
    coming: Tree<Chunk, Dip>,
}

impl Model for Timeline {
    ghost use Rattle.std.specs.Prelude.{List, ◌++◌};
    ghost use Rattle.planner_min_tree.specs.declared.points.Point.{Point};
    ghost use Rattle.planner_min_tree.specs.Chunks.{flat, AreFilled};

    ghost Value = { List Point };

    ghost view = { λ line. flat (line.past.0 ++ line.coming.0) };

    ghost invariant = { λ line. AreFilled line.past.0 × AreFilled line.coming.0 };
}

impl Share for Timeline {
    fn share(&self) -> Result<Timeline, AllocError> {
        let past = self.past.share()?;
        let coming = self.coming.share()?;
        Ok(Timeline { past, coming })
    }
}

/// The second, where it is later than another.
fn later_than(end: Option<u64>, from: u64) -> Option<u64>
    ensures some { IfSome result (λ t. (from < t) × (end ≡ Some t)) }
    ensures none { IfNone result (IfSome end (λ t. t ≤ from)) }
{
    match end {
        None => None,
        Some(t) => { if t > from { Some(t) } else { None } }
    }
}

/// Whether a second has its place among the points of a tree, where others come behind it.
#[inline]
#[tactic(auto, using(crate::proofs::PlanFacts::few_chunks))]
fn has_place(tree: &Tree<Chunk, Dip>, t: u64) -> bool
    requires { AreFilled tree.now.0 }
    ensures { IsTrue result ↔ HasPlace t (flat tree.now.0) }
{
    if tree.len() == 0 {
        return false;
    }
    t <= tree.sum().latest
}

/// Changes the points of two trees, one behind the other, twice.
#[tactic(auto, using(crate::proofs::Timelines::change_facts))]
fn both_change<L: Ledger>(
    alloc: Global,
    past: &mut Tree<Chunk, Dip>,
    coming: &mut Tree<Chunk, Dip>,
    first: Change,
    second: Change,
    steps: &mut Steps<L>,
) -> Result<(), AllocError>
    requires past { AreFilled past.old.0 }
    requires coming { AreFilled coming.old.0 }
    requires late { StaysLate first second }
    ensures items { OnOk result (flat (past.new.0 ++ coming.new.0)
        ≡ changed second (changed first (flat (past.old.0 ++ coming.old.0)))) }
    ensures past { AreFilled past.new.0 }
    ensures coming { AreFilled coming.new.0 }
    ensures work { steps.new ≤ steps.old + 13 * (past.old.1 + 1) + 13 * (coming.old.1 + 1) }
{
    match (
        has_place(past, first.time()),
        has_place(past, second.time()),
    ) {
        (false, false) => change_twice(alloc, coming, first, second, steps),
        (true, true) => change_twice(alloc, past, first, second, steps),
        (true, false) => {
            change_once(alloc, past, first, steps)?;
            change_once(alloc, coming, second, steps)
        }
        (false, true) => {
            change_once(alloc, past, second, steps)?;
            change_once(alloc, coming, first, steps)
        }
    }
}

/// What stands in the place of the last chunk where the next one comes behind it: both in one where these are no more
/// than `PAST_POINTS`.
fn joined<L: Ledger>(
    alloc: Global,
    last: &Chunk,
    next: &Chunk,
    steps: &mut Steps<L>,
) -> Result<Edit<Chunk>, AllocError>
    requires last { 0 < length last.now }
    requires next { 0 < length next.now }
    ensures items { IfOk result (λ edit. flat (made edit) ≡ last.now ++ next.now) }
    ensures filled { IfOk result (λ edit. AreFilled (made edit)) }
    ensures work { steps.new ≤ steps.old + 2 }
{
    let front = last.look(steps);
    let back = next.look(steps);
    if front.len() + back.len() > PAST_POINTS {
        let first = last.share()?;
        let second = next.share()?;
        return Ok(Edit::Pair(first, second));
    }
    let both = Chunk::joined(alloc, front, back)?;
    Ok(Edit::Put(both))
}

/// Puts the points of a chunk behind those of a tree.
#[tactic(auto, using(crate::proofs::Timelines::behind_facts))]
fn put_behind<L: Ledger>(
    alloc: Global,
    tree: &mut Tree<Chunk, Dip>,
    next: Chunk,
    steps: &mut Steps<L>,
) -> Result<(), AllocError>
    requires filled { AreFilled tree.old.0 }
    requires next { 0 < length next }
    ensures items { OnOk result (flat tree.new.0 ≡ flat tree.old.0 ++ next) }
    ensures filled { AreFilled tree.new.0 }
    ensures work { steps.new ≤ steps.old + 4 * tree.old.1 + 4 }
{
    if tree.len() == 0 {
        return tree.set_leaf(next, steps);
    }
    let at = tree.len() - 1;
    let both = joined(alloc, tree.get(at, steps), &next, steps)?;
    edit(alloc, tree, at, both, steps)
}

/// Takes the points of its first chunk out of a tree.
#[tactic(auto, using(crate::proofs::Timelines::first_facts))]
fn cut_first<L: Ledger>(
    alloc: Global,
    tree: &mut Tree<Chunk, Dip>,
    steps: &mut Steps<L>,
) -> Result<(), AllocError>
    requires filled { AreFilled tree.old.0 }
    requires some { 0 < length tree.old.0 }
    ensures items { OnOk result ((first : List Point) → slice_get tree.old.0 0 ≡ Some first →
        first ++ flat tree.new.0 ≡ flat tree.old.0) }
    ensures filled { AreFilled tree.new.0 }
    ensures work { steps.new ≤ steps.old + 3 * tree.old.1 + 2 }
{
    edit(alloc, tree, 0, Edit::Cut, steps)
}

/// Puts the first chunk of a tree behind another tree, where no point of it is later than the moment.
#[tactic(auto, using(crate::proofs::Timelines::settle_facts))]
fn settle_first<L: Ledger>(
    alloc: Global,
    past: &mut Tree<Chunk, Dip>,
    coming: &mut Tree<Chunk, Dip>,
    moment: u64,
    steps: &mut Steps<L>,
) -> Result<(), AllocError>
    requires past { AreFilled past.old.0 }
    requires coming { AreFilled coming.old.0 }
    requires some { 0 < length coming.old.0 }
    ensures same { OnOk result (flat (past.new.0 ++ coming.new.0) ≡ flat (past.old.0 ++ coming.old.0)) }
    ensures past { AreFilled past.new.0 }
    ensures coming { AreFilled coming.new.0 }
    ensures work { steps.new ≤ steps.old + 4 * past.old.1 + 5 * coming.old.1 + 6 }
{
    if coming.first_sum(steps).latest > moment {
        return Ok(());
    }
    let chunk = coming.get(0, steps).share()?;
    put_behind(alloc, past, chunk, steps)?;
    cut_first(alloc, coming, steps)
}

impl Timeline {
    /// No points. It takes no memory.
    pub fn empty() -> Timeline
        ensures { result ≡ [] }
    {
        Timeline {
            past: Tree::empty(),
            coming: Tree::empty(),
        }
    }

    /// Adds the stretches that the points tell of from a second on, as far as there is room for them and the node that
    /// has the second's place tells them: none where it is past.
    #[tactic(auto, using(crate::proofs::TwoSides::value_facts))]
    pub fn note_near<L: Ledger>(
        &self,
        from: u64,
        free: u64,
        stretches: &mut ArrayVec<Stretch, NEXT>,
        steps: &mut Steps<L>,
    )
        requires { Runs self.now free }
        ensures noted { GoOn (λ m. value_at m self.now free) stretches.old.items from stretches.new.items }
        ensures work { steps.new ≤ steps.old + 2 * dig (length self.now + 2) }
    {
        let _past = self.past.height();
        let _coming = self.coming.height();
        let sum = self.past.sum();
        if from < sum.latest {
            return;
        }
        walks::note_near(
            Side { tree: &self.coming },
            from,
            sum.past(free),
            true,
            stretches,
            steps,
        )
    }

    /// The first point that isn't before a moment.
    #[tactic(auto, using(crate::proofs::TwoSides::first_facts))]
    pub fn first_from<L: Ledger>(&self, t: u128, steps: &mut Steps<L>) -> Option<Point>
        requires { 0 < t }
        ensures value { result ≡ first_from t self.now }
        ensures work { steps.new ≤ steps.old + 2 * dig (length self.now + 2) }
        ensures counted { steps.old ≤ steps.new }
    {
        let _past = self.past.height();
        let _coming = self.coming.height();
        if (self.past.sum().latest as u128) < t {
            return walks::first_from(Side { tree: &self.coming }, t, steps);
        }
        walks::first_from(Side { tree: &self.past }, t, steps)
    }

    /// The least that is free over a window.
    #[tactic(auto, using(crate::proofs::TwoSides::in_facts))]
    pub fn lowest_in<L: Ledger>(&self, from: u64, to: u64, free: u64, steps: &mut Steps<L>) -> u64
        requires runs { Runs self.now free }
        requires window { from < to }
        ensures value { result ≡ lowest_in from to self.now free }
        ensures work { steps.new ≤ steps.old + 4 * dig (length self.now + 2) }
        ensures counted { steps.old ≤ steps.new }
    {
        let _past = self.past.height();
        let _coming = self.coming.height();
        let sum = self.past.sum();
        if sum.latest <= from {
            return walks::lowest_in(Side { tree: &self.coming }, from, to, sum.past(free), steps);
        }
        if to <= sum.latest {
            return walks::lowest_in(Side { tree: &self.past }, from, to, free, steps);
        }
        let first = walks::lowest_from(Side { tree: &self.past }, from, free, steps);
        let second = walks::lowest_before(Side { tree: &self.coming }, to, sum.past(free), steps);
        first.min(second)
    }

    /// What is free at a moment.
    #[tactic(auto, using(crate::proofs::TwoSides::value_facts))]
    pub fn value_at<L: Ledger>(&self, m: u64, free: u64, steps: &mut Steps<L>) -> u64
        requires { Runs self.now free }
        ensures value { result ≡ value_at m self.now free }
        ensures work { steps.new ≤ steps.old + 2 * dig (length self.now + 2) }
        ensures counted { steps.old ≤ steps.new }
    {
        let _past = self.past.height();
        let _coming = self.coming.height();
        let sum = self.past.sum();
        if sum.latest <= m {
            return walks::value_at(Side { tree: &self.coming }, m, sum.past(free), steps);
        }
        walks::value_at(Side { tree: &self.past }, m, free, steps)
    }

    /// The time of the first point that is later than a moment and after which so much is free, where less is at the
    /// moment.
    #[tactic(auto, using(crate::proofs::TwoSides::after_facts))]
    pub fn rise_after<L: Ledger>(
        &self,
        from: u64,
        quantity: u64,
        free: u64,
        steps: &mut Steps<L>,
    ) -> Option<u64>
        requires runs { Runs self.now free }
        requires less { value_at from self.now free < quantity }
        ensures value { result ≡ rise_after from quantity self.now free }
        ensures work { steps.new ≤ steps.old + 4 * dig (length self.now + 2) }
        ensures counted { steps.old ≤ steps.new }
    {
        let _past = self.past.height();
        let _coming = self.coming.height();
        let sum = self.past.sum();
        let past = sum.past(free);
        if sum.latest <= from {
            return walks::rise_after(Side { tree: &self.coming }, from, quantity, past, steps);
        }
        match walks::rise_after(Side { tree: &self.past }, from, quantity, free, steps) {
            Some(t) => Some(t),
            None => walks::some_rise(Side { tree: &self.coming }, quantity, past, steps),
        }
    }

    /// The second at which the last stretch before a moment ends over which less than so much is free.
    #[tactic(auto, using(crate::proofs::TwoSides::low_facts))]
    pub fn low_end<L: Ledger>(
        &self,
        to: u64,
        quantity: u64,
        free: u64,
        steps: &mut Steps<L>,
    ) -> Option<u64>
        requires runs { Runs self.now free }
        requires later { 0 < to }
        ensures value { result ≡ low_end to quantity self.now free }
        ensures work { steps.new ≤ steps.old + 4 * dig (length self.now + 2) }
        ensures counted { steps.old ≤ steps.new }
    {
        let _past = self.past.height();
        let _coming = self.coming.height();
        let sum = self.past.sum();
        if to <= sum.latest {
            return walks::low_end(Side { tree: &self.past }, to, quantity, free, steps);
        }
        match walks::low_end(
            Side { tree: &self.coming },
            to,
            quantity,
            sum.past(free),
            steps,
        ) {
            Some(t) => Some(t),
            None => walks::some_last_rise(Side { tree: &self.past }, quantity, free, steps),
        }
    }

    /// The second at which the last stretch before `to` ends over which less than so much is free, where it ends after
    /// `from`. What is past by then isn't looked at, nor what is to come where so much is free throughout it.
    #[tactic(auto, using(crate::proofs::TwoSides::past_facts))]
    pub fn low_after<L: Ledger>(
        &self,
        from: u64,
        to: u64,
        quantity: u64,
        free: u64,
        steps: &mut Steps<L>,
    ) -> Option<u64>
        requires runs { Runs self.now free }
        requires window { from < to }
        ensures some { IfSome result (λ end. (from < end) × (low_end to quantity self.now free ≡ Some end)) }
        ensures none { IfNone result (IfSome (low_end to quantity self.now free) (λ end. end ≤ from)) }
        ensures work { steps.new ≤ steps.old + 4 * dig (length self.now + 2) }
        ensures counted { steps.old ≤ steps.new }
    {
        let _past = self.past.height();
        let _coming = self.coming.height();
        let sum = self.past.sum();
        if from < sum.latest {
            return later_than(self.low_end(to, quantity, free, steps), from);
        }
        let past = sum.past(free);
        if quantity <= past - self.coming.sum().need {
            return None;
        }
        later_than(
            walks::low_end(Side { tree: &self.coming }, to, quantity, past, steps),
            from,
        )
    }

    /// Changes the points twice. Where no memory is left there may be any points.
    pub fn change_twice<L: Ledger>(
        &mut self,
        alloc: Global,
        first: Change,
        second: Change,
        steps: &mut Steps<L>,
    ) -> Result<(), AllocError>
        requires { StaysLate first second }
        ensures items { OnOk result (self.new ≡ changed second (changed first self.old)) }
        ensures work { steps.new ≤ steps.old + 64 * dig (length self.old + 2) }
    {
        let _past = self.past.height();
        let _coming = self.coming.height();
        both_change(
            alloc,
            &mut self.past,
            &mut self.coming,
            first,
            second,
            steps,
        )
    }

    /// Sets the first chunk of those to come to what is past, where no point of it is later than the moment, and
    /// another chunk is to come: the points stay the same. Where no memory is left there may be any points.
    #[inline]
    pub fn settle<L: Ledger>(
        &mut self,
        alloc: Global,
        moment: u64,
        steps: &mut Steps<L>,
    ) -> Result<(), AllocError>
        ensures same { OnOk result (self.new ≡ self.old) }
        ensures work { steps.new ≤ steps.old + 64 * dig (length self.old + 2) }
    {
        let _past = self.past.height();
        let _coming = self.coming.height();
        if self.coming.len() < 2 {
            return Ok(());
        }
        settle_first(alloc, &mut self.past, &mut self.coming, moment, steps)
    }
}
