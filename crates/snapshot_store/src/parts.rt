//! Parts of a list, as shared trees: a node of sixteen parts has room for sixteen times as many items as each of them.
ghost use Rattle.std.specs.Prelude.{◌≡◌, ℕ, ◌+◌, ◌-◌, ◌*◌, ◌/◌, ◌^◌, ◌<◌, ◌≤◌, List, [], ◌∷◌, ◌++◌, length, slice_get};
ghost use Rattle.std.specs.Prelude.{slice_set, replicate, Some, IfOk, IfErr, OnOk, OnErr, ◌%◌};
ghost use Rattle.snapshot_store.specs.Places.{IsGiven};

use crate::changes::Change;
use flux_defs::Steps;
use node_store::{Node, Share, Sixteen, Vacant};
use std::alloc::{AllocError, Global};
use std::marker::Model;
use std::sync::ledger::Ledger;

/// A part of a list: nothing, an item, or a page of sixteen parts. Contracts see its items and its height, which is how
/// many pages stand one below the other.
#[cycle(part)]
#[derive(Drop)]
pub struct Part<T: Drop> {
    body: Body<T>,
}

/// What a part is made of.
#[cycle(part)]
#[derive(Drop)]
enum Body<T: Drop> {
    Empty,
    Item(Node<T>),
    Fork(Node<Page<T>>),
}

/// Sixteen parts one after the other, each full where one after it has an item; `below` is their height.
#[cycle(part)]
#[derive(Drop)]
pub struct Page<T: Drop> {
    below: u64,
    parts: Sixteen<Part<T>>,
}

impl<T: Drop> Model for Part<T> {
    ghost use Rattle.std.specs.Prelude.{ℕ, List};

    ghost Value = { List T × ℕ };

    ghost use Rattle.snapshot_store.specs.Parts.{items_of, height_of, IsLevel};

    ghost view = { λ part. (items_of part.body, height_of part.body) };

    ghost invariant = { λ part. IsLevel part.body };

    ghost size = { λ value. value.1 };

    ghost use Rattle.snapshot_store.specs.Heights.{falls};

    ghost size_decreases = { falls };
}

impl<T: Drop> Vacant for Part<T> {
    ghost use Rattle.std.specs.Prelude.{[]};

    ghost vacant = { ([], 0) };

    fn vacant() -> Part<T> {
        Part { body: Body::Empty }
    }
}

impl<T: Drop> Share for Part<T> {
    fn share(&self) -> Result<Part<T>, AllocError> {
        let body = match &self.body {
            Body::Empty => Body::Empty,
            Body::Item(node) => Body::Item(node.share()?),
            Body::Fork(node) => Body::Fork(node.share()?),
        };
        Ok(Part { body })
    }
}

impl<T: Drop> Share for Page<T> {
    fn share(&self) -> Result<Page<T>, AllocError> {
        let parts = self.parts.share()?;
        Ok(Page {
            below: self.below,
            parts,
        })
    }
}

impl<T: Drop> Page<T> {
    ghost use Rattle.snapshot_store.specs.Parts.{parts_in, items_in, IsPage};
    ghost use Rattle.snapshot_store.specs.Places.{HasItem, HasRoom};

    /// A page of sixteen empty parts of that height.
    fn vacant(below: u64) -> Page<T>
        ensures below { result.below ≡ below }
        ensures parts { parts_in result ≡ replicate 16 ([], 0) }
    {
        Page {
            below,
            parts: Sixteen::vacant(),
        }
    }

    /// The place of the part that has the item, and the item's place in it; `below` is the height of the parts.
    fn place_of(&self, below: u64, at: u64) -> (u64, u64)
        requires page { IsPage self.now }
        requires below { below ≡ self.now.below }
        requires inside { at < length (items_in (parts_in self.now)) }
        ensures place { result.0 < 16 }
        ensures item { (part : List T × ℕ) → slice_get (parts_in self.now) result.0 ≡ Some part →
            HasItem self.now at part result.0 result.1 }
    {
        split(below, at)
    }

    /// The place of the part that has room for the next item, and how many items that part has.
    fn room_of(&self, at: u64) -> (u64, u64)
        requires page { IsPage self.now }
        requires end { at ≡ length (items_in (parts_in self.now)) }
        requires room { at < 16 * 2 ^ (4 * self.now.below) }
        ensures place { result.0 < 16 }
        ensures rest { result.1 ≡ at % 2 ^ (4 * self.now.below) }
        ensures room { (part : List T × ℕ) → slice_get (parts_in self.now) result.0 ≡ Some part →
            HasRoom self.now part result.0 result.1 }
    {
        split(self.below, at)
    }

    /// Adds the item at the end of a page of items, in place where no other holds the page and in a copy otherwise.
    /// Where no memory is left the page is as before.
    fn add(alloc: Global, node: &mut Node<Page<T>>, at: u64, item: T) -> Result<(), (T, AllocError)>
        requires page { IsPage node.old }
        requires below { node.old.below ≡ 0 }
        requires end { at ≡ length (items_in (parts_in node.old)) }
        requires room { at < 16 }
        ensures page { OnOk result (IsPage node.new) }
        ensures below { OnOk result (node.new.below ≡ 0) }
        ensures new { OnOk result (items_in (parts_in node.new) ≡ items_in (parts_in node.old) ++ item ∷ []) }
        ensures item { IfErr result (λ e. e.0 ≡ item) }
        ensures same { OnErr result (node.new ≡ node.old) }
    {
        if let Err(refused) = node.own(alloc) {
            return Err((item, refused));
        }
        let Some(page) = node.get_mut() else {
            return Err((item, AllocError));
        };
        let (place, _) = page.room_of(at);
        match Node::new(alloc, item) {
            Ok(node) => {
                *page.parts.get_mut(place) = Part {
                    body: Body::Item(node),
                };
                return Ok(());
            }
            Err(refused) => return Err(refused),
        }
    }

    /// The part that has the item, and the item's place in it; `below` is the height of the parts.
    fn find(&self, below: u64, at: u64) -> (&Part<T>, u64)
        requires page { IsPage self.now }
        requires below { below ≡ self.now.below }
        requires inside { at < length (items_in (parts_in self.now)) }
        ensures inside { result.1 < length result.0.now.0 }
        ensures height { result.0.now.1 ≡ below }
        ensures same { slice_get (items_in (parts_in self.now)) at ≡ slice_get result.0.now.0 result.1 }
    {
        let (place, rest) = self.place_of(below, at);
        (self.parts.get(place), rest)
    }
}

/// The quotient and the remainder of a place by the number of items that a part of this height has room for, which is a
/// power of two: no division is made.
#[inline(always)]
fn split(below: u64, at: u64) -> (u64, u64)
    requires { below < 16 }
    ensures place { result.0 ≡ at / 2 ^ (4 * below) }
    ensures rest { result.1 ≡ at % 2 ^ (4 * below) }
{
    let bits = 4 * below;
    let place = at >> bits;
    (place, at - (place << bits))
}

/// From now on the node holds the item that is given, which is taken. Where no memory is left it isn't taken, and the
/// node is as before.
fn set_given<T: Drop>(
    alloc: Global,
    node: &mut Node<T>,
    given: &mut Option<T>,
) -> Result<(), AllocError>
    requires { IsGiven given.old }
    ensures new { OnOk result ((item : T) → given.old ≡ Some item → node.new ≡ item) }
    ensures given { OnErr result (given.new ≡ given.old) }
    ensures same { OnErr result (node.new ≡ node.old) }
{
    let Some(item) = given.take() else {
        unreachable!()
    };
    match node.set(alloc, item) {
        Ok(()) => return Ok(()),
        Err((item, refused)) => {
            *given = Some(item);
            return Err(refused);
        }
    }
}

/// Changes the item that the node holds; others that held the same item keep it.
fn change_held<T: Share + Drop, C: Change<T>, L: Ledger>(
    alloc: Global,
    node: &mut Node<T>,
    change: &C,
    steps: &mut Steps<L>,
) -> Result<(), AllocError>
    requires fits { C.fits change.now node.old }
    ensures made { OnOk result (C.makes change.now node.old node.new) }
    ensures work { (most : ℕ) → C.takes change.now node.old most → steps.new ≤ steps.old + most }
{
    if let Err(refused) = node.own(alloc) {
        return Err(refused);
    }
    let Some(item) = node.get_mut() else {
        return Err(AllocError);
    };
    change.make(alloc, item, steps)
}

impl<T: Share + Drop> Part<T> {
    /// Changes the item at a place where it stands, in the pages of this part that no other holds and in copies of the
    /// others.
    pub fn change<C: Change<T>, L: Ledger>(
        &mut self,
        alloc: Global,
        at: u64,
        change: &C,
        steps: &mut Steps<L>,
    ) -> Result<(), AllocError>
        requires within { at < length self.old.0 }
        requires fits { (x : T) → slice_get self.old.0 at ≡ Some x → C.fits change.now x }
        ensures new { (y : T) × (self.new ≡ (slice_set self.old.0 at y, self.old.1))
            × OnOk result ((x : T) → slice_get self.old.0 at ≡ Some x → C.makes change.now x y) }
        ensures work { (x : T) (most : ℕ) → slice_get self.old.0 at ≡ Some x → C.takes change.now x most →
            steps.new ≤ steps.old + (self.old.1 + 1 + most) }
    {
        match &mut self.body {
            Body::Empty => unreachable!(),
            Body::Item(node) => {
                steps.tick();
                match change_held(alloc, node, change, steps) {
                    Ok(()) => return Ok(()),
                    Err(refused) => return Err(refused),
                }
            }
            Body::Fork(node) => {
                steps.tick();
                if let Err(refused) = node.own(alloc) {
                    return Err(refused);
                }
                let Some(page) = node.get_mut() else {
                    return Err(AllocError);
                };
                let (place, rest) = page.place_of(page.below, at);
                match page.parts.get_mut(place).change(alloc, rest, change, steps) {
                    Ok(()) => return Ok(()),
                    Err(refused) => return Err(refused),
                }
            }
        }
    }
}

impl<T: Drop> Part<T> {
    ghost use Rattle.snapshot_store.specs.Parts.{IsPart, IsFull};

    /// The item at a place of a part of this height. It takes a step for each page on the way to it, and one for the
    /// item. The pages' own heights, which lie in other cache lines than their parts, aren't read.
    pub fn get<L: Ledger>(&self, height: u64, at: u64, steps: &mut Steps<L>) -> &T
        requires within { at < length self.now.0 }
        requires height { height ≡ self.now.1 }
        ensures value { slice_get self.now.0 at ≡ Some result.now }
        ensures work { steps.new ≤ steps.old + self.now.1 + 1 }
        ensures counted { steps.old ≤ steps.new }
    {
        match &self.body {
            Body::Empty => unreachable!(),
            Body::Item(node) => node.look(steps),
            Body::Fork(node) => {
                let page = node.look(steps);
                let (part, rest) = page.find(height - 1, at);
                part.get(height - 1, rest, steps)
            }
        }
    }

    /// Stores the item that is given at a place, in the pages of this part that no other holds and in copies of the
    /// others, and takes it. Where no memory is left it isn't taken, and the part is as before.
    pub fn put<L: Ledger>(
        &mut self,
        alloc: Global,
        at: u64,
        given: &mut Option<T>,
        steps: &mut Steps<L>,
    ) -> Result<(), AllocError>
        requires within { at < length self.old.0 }
        requires some { IsGiven given.old }
        ensures new { OnOk result
            ((item : T) → given.old ≡ Some item → self.new ≡ (slice_set self.old.0 at item, self.old.1)) }
        ensures given { OnErr result (given.new ≡ given.old) }
        ensures same { OnErr result (self.new ≡ self.old) }
        ensures work { steps.new ≤ steps.old + self.old.1 + 1 }
    {
        match &mut self.body {
            Body::Empty => unreachable!(),
            Body::Item(node) => {
                steps.tick();
                return set_given(alloc, node, given);
            }
            Body::Fork(node) => {
                steps.tick();
                if let Err(refused) = node.own(alloc) {
                    return Err(refused);
                }
                let Some(page) = node.get_mut() else {
                    return Err(AllocError);
                };
                let (place, rest) = page.place_of(page.below, at);
                match page.parts.get_mut(place).put(alloc, rest, given, steps) {
                    Ok(()) => return Ok(()),
                    Err(refused) => return Err(refused),
                }
            }
        }
    }

    /// A part one higher, of which this one is the first part. Where no memory is left it comes back.
    pub fn raised(self, alloc: Global, height: u64) -> Result<Part<T>, (Part<T>, AllocError)>
        requires low { height < 16 }
        requires part { IsPart height self }
        ensures new { IfOk result (λ part. part ≡ (self.0, height + 1)) }
        ensures same { IfErr result (λ e. e.0 ≡ self) }
    {
        let mut node = match Node::of(alloc, Page::vacant(height)) {
            Ok(node) => node,
            Err(refused) => return Err((self, refused)),
        };
        let Some(page) = node.get_mut() else {
            return Err((self, AllocError));
        };
        *page.parts.get_mut(0) = self;
        Ok(Part {
            body: Body::Fork(node),
        })
    }

    /// A part of that height that has the items of a full part: pages of one part each lead down to it.
    fn path(alloc: Global, height: u64, full: &Part<T>) -> Result<Part<T>, AllocError>
        requires full { IsFull full.now }
        requires low { 1 ≤ height }
        requires high { height ≤ 16 }
        ensures { IfOk result (λ part. part ≡ (full.now.0, height)) }
    {
        if height == 1 {
            return full.share();
        }
        let part = match Part::path(alloc, height - 1, full) {
            Ok(part) => part,
            Err(refused) => return Err(refused),
        };
        match part.raised(alloc, height - 1) {
            Ok(part) => Ok(part),
            Err((_, refused)) => Err(refused),
        }
    }

    /// Adds the items of a full part at the end of a part of that height, which has whole rows of sixteen: in the pages
    /// that no other part holds and in copies of the others. Where no memory is left the part is as before.
    pub fn append<L: Ledger>(
        &mut self,
        alloc: Global,
        height: u64,
        at: u64,
        full: &Part<T>,
        steps: &mut Steps<L>,
    ) -> Result<(), AllocError>
        requires part { IsPart height self.old }
        requires full { IsFull full.now }
        requires end { at ≡ length self.old.0 }
        requires rows { at % 16 ≡ 0 }
        requires room { at < 2 ^ (4 * height) }
        requires low { 1 ≤ height }
        requires high { height ≤ 16 }
        ensures new { OnOk result (self.new ≡ (self.old.0 ++ full.now.0, height)) }
        ensures same { OnErr result (self.new ≡ self.old) }
        ensures work { steps.new + 1 ≤ steps.old + height }
    {
        if height == 1 {
            match full.share() {
                Ok(part) => {
                    *self = part;
                    return Ok(());
                }
                Err(refused) => return Err(refused),
            }
        }
        match &mut self.body {
            Body::Item(_) => unreachable!(),
            Body::Empty => match Part::path(alloc, height, full) {
                Ok(part) => {
                    *self = part;
                    return Ok(());
                }
                Err(refused) => return Err(refused),
            },
            Body::Fork(node) => {
                steps.tick();
                if let Err(refused) = node.own(alloc) {
                    return Err(refused);
                }
                let Some(page) = node.get_mut() else {
                    return Err(AllocError);
                };
                let below = page.below;
                let (place, rest) = page.room_of(at);
                match page
                    .parts
                    .get_mut(place)
                    .append(alloc, below, rest, full, steps)
                {
                    Ok(()) => return Ok(()),
                    Err(refused) => return Err(refused),
                }
            }
        }
    }

    /// Adds the item at the end of a part of height 1, in its page where no other part holds that and in a copy
    /// otherwise. Where no memory is left the part is as before.
    pub fn push<L: Ledger>(
        &mut self,
        alloc: Global,
        at: u64,
        item: T,
        steps: &mut Steps<L>,
    ) -> Result<(), (T, AllocError)>
        requires part { IsPart 1 self.old }
        requires end { at ≡ length self.old.0 }
        requires room { at < 16 }
        ensures new { OnOk result (self.new ≡ (self.old.0 ++ item ∷ [], 1)) }
        ensures item { IfErr result (λ e. e.0 ≡ item) }
        ensures same { OnErr result (self.new ≡ self.old) }
        ensures work { steps.new ≤ steps.old + 1 }
    {
        match &mut self.body {
            Body::Item(_) => unreachable!(),
            Body::Empty => {
                let mut node = match Node::of(alloc, Page::vacant(0)) {
                    Ok(node) => node,
                    Err(refused) => return Err((item, refused)),
                };
                match Page::add(alloc, &mut node, 0, item) {
                    Ok(()) => {
                        self.body = Body::Fork(node);
                        return Ok(());
                    }
                    Err(refused) => return Err(refused),
                }
            }
            Body::Fork(node) => {
                steps.tick();
                return Page::add(alloc, node, at, item);
            }
        }
    }
}
