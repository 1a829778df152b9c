//! Lists, of which old versions stay.
ghost use Rattle.std.specs.Prelude.{◌≡◌, ℕ, ◌+◌, ◌*◌, ◌^◌, ◌<◌, ◌≤◌, ◌↔◌, IsTrue, List, [], ◌∷◌, ◌++◌, length};
ghost use Rattle.std.specs.Prelude.{slice_get, slice_set, Some, IfOk, IfErr, OnOk, OnErr};
ghost use Rattle.std.specs.Option.{option_copied};
ghost use Rattle.flux_defs.specs.Digits.{dig};
ghost use Rattle.snapshot_store.specs.Parts.{IsPart};
ghost use Rattle.snapshot_store.specs.Places.{IsGiven};

use crate::changes::Change;
use crate::parts::Part;
use crate::trees::Tree;
use flux_defs::Steps;
use node_store::{Share, Vacant};
use std::alloc::{AllocError, Global};
use std::marker::Model;
use std::sync::ledger::Ledger;

/// A list of items; contracts see just that. `snap` gives the same list again at the cost of two shared nodes. `put`,
/// `change` and `push` change a list in place, and `with` and `with_pushed` give a changed one: in each case every list
/// that was taken before stays as it was, and the nodes that a change doesn't lead through are held in common.
///
/// A call takes at most a step for each level of sixteen parts a node, and one for the item: five for 65,536 items.
/// Where no memory is left a call that was given an item gives it back, and the list is as before.
///
/// The last items, sixteen at most, stand in a page of their own, and go into the tree all at once when they are
/// sixteen. So of sixteen additions, each after a snapshot, fifteen copy that page alone, and not those from the tree's
/// root down.
pub struct Pages<T: Drop> {
    len: u64,
    tree: Tree<T>,
    tail: Part<T>,
}

impl<T: Drop> Model for Pages<T> {
    ghost use Rattle.std.specs.Prelude.{List, ◌++◌};

    ghost Value = { List T };

    ghost use Rattle.snapshot_store.specs.Lists.{IsList};

    ghost view = { λ pages. pages.tree ++ pages.tail.0 };

    ghost invariant = { λ pages. IsList pages };
}

impl<T: Drop> Drop for Pages<T> {
    /// Lets go of the tree and of the last items. It is written out, so that to drop a list is one call: a derived drop
    /// is stated where a list is dropped, with each kind of part that its tree and its last items may be.
    fn drop(self) {
        let Pages {
            len: _,
            tree: _,
            tail: _,
        } = self;
    }
}

/// Moves the last items of a list into its tree where they are sixteen, so that there is room for one more. Where no
/// memory is left both are as before.
#[tactic(auto, using(crate::proofs::ListLaws::joined_facts))]
fn settle<T: Drop, L: Ledger>(
    alloc: Global,
    tree: &mut Tree<T>,
    tail: &mut Part<T>,
    count: u64,
    steps: &mut Steps<L>,
) -> Result<(), AllocError>
    requires part { IsPart 1 tail.old }
    requires count { count ≡ length tail.old.0 }
    requires fits { length tree.old + count < 2 ^ 64 }
    ensures items { OnOk result (tree.new ++ tail.new.0 ≡ tree.old ++ tail.old.0) }
    ensures len { OnOk result (length tree.new + length tail.new.0 ≡ length tree.old + length tail.old.0) }
    ensures part { OnOk result (IsPart 1 tail.new) }
    ensures room { OnOk result (length tail.new.0 < 16) }
    ensures tree { OnErr result (tree.new ≡ tree.old) }
    ensures tail { OnErr result (tail.new ≡ tail.old) }
    ensures work { steps.new + 1 ≤ steps.old + dig (length tree.old + 1) }
{
    if count < 16 {
        return Ok(());
    }
    match tree.append(alloc, tail, steps) {
        Ok(()) => {
            *tail = Part::vacant();
            return Ok(());
        }
        Err(refused) => return Err(refused),
    }
}

impl<T: Share + Drop> Pages<T> {
    /// Changes the item at a place of the list where it stands. Where no memory is left some item stands there, and the
    /// others are as before.
    #[tactic(auto, using(crate::proofs::ListLaws::joined_facts))]
    pub fn change<C: Change<T>, L: Ledger>(
        &mut self,
        alloc: Global,
        at: u64,
        change: &C,
        steps: &mut Steps<L>,
    ) -> Result<(), AllocError>
        requires within { at < length self.old }
        requires fits { (x : T) → slice_get self.old at ≡ Some x → C.fits change.now x }
        ensures new { (y : T) × (self.new ≡ slice_set self.old at y)
            × OnOk result ((x : T) → slice_get self.old at ≡ Some x → C.makes change.now x y) }
        ensures work { (x : T) (most : ℕ) → slice_get self.old at ≡ Some x → C.takes change.now x most →
            steps.new ≤ steps.old + (2 * dig (length self.old + 1) + most) }
    {
        let front = self.tree.len();
        if at >= front {
            match self.tail.change(alloc, at - front, change, steps) {
                Ok(()) => return Ok(()),
                Err(refused) => return Err(refused),
            }
        }
        match self.tree.change(alloc, at, change, steps) {
            Ok(()) => return Ok(()),
            Err(refused) => return Err(refused),
        }
    }
}

impl<T: Drop> Pages<T> {
    /// The empty list. It takes no memory.
    #[tactic(auto, using(crate::proofs::ListLaws::joined_facts))]
    pub fn empty() -> Pages<T>
        ensures { result ≡ [] }
    {
        Pages {
            len: 0,
            tree: Tree::empty(),
            tail: Part::vacant(),
        }
    }

    /// How many items it has. It takes no memory.
    pub fn len(&self) -> u64
        ensures { result ≡ length self.now }
    {
        self.len
    }

    /// Whether it has no item. It takes no memory.
    pub fn is_empty(&self) -> bool
        ensures { IsTrue result ↔ (length self.now ≡ 0) }
    {
        self.len == 0
    }

    /// The item at a place from 0, and `None` exactly from the list's end on. It takes no memory.
    #[tactic(auto, using(crate::proofs::ListLaws::joined_facts))]
    pub fn get<L: Ledger>(&self, at: u64, steps: &mut Steps<L>) -> Option<&T>
        ensures value { option_copied result ≡ slice_get self.now at }
        ensures work { steps.new ≤ steps.old + 2 * dig (length self.now + 1) }
        ensures counted { steps.old ≤ steps.new }
    {
        if at >= self.len {
            return None;
        }
        let front = self.tree.len();
        if at >= front {
            return Some(self.tail.get(1, at - front, steps));
        }
        Some(self.tree.get(at, steps))
    }

    /// The same list. It costs two shared nodes, whatever the list's length.
    pub fn snap(&self) -> Result<Pages<T>, AllocError>
        ensures { IfOk result (λ same. same ≡ self.now) }
    {
        let tree = self.tree.share()?;
        let tail = self.tail.share()?;
        Ok(Pages {
            len: self.len,
            tree,
            tail,
        })
    }

    /// Stores the item that is given at a place of the list, and takes it. Where no memory is left it isn't taken.
    #[tactic(auto, using(crate::proofs::ListLaws::joined_facts))]
    fn put_given<L: Ledger>(
        &mut self,
        alloc: Global,
        at: u64,
        given: &mut Option<T>,
        steps: &mut Steps<L>,
    ) -> Result<(), AllocError>
        requires within { at < length self.old }
        requires some { IsGiven given.old }
        ensures new { OnOk result ((item : T) → given.old ≡ Some item → self.new ≡ slice_set self.old at item) }
        ensures given { OnErr result (given.new ≡ given.old) }
        ensures same { OnErr result (self.new ≡ self.old) }
        ensures work { steps.new ≤ steps.old + 2 * dig (length self.old + 1) }
    {
        let front = self.tree.len();
        if at >= front {
            match self.tail.put(alloc, at - front, given, steps) {
                Ok(()) => return Ok(()),
                Err(refused) => return Err(refused),
            }
        }
        match self.tree.put(alloc, at, given, steps) {
            Ok(()) => return Ok(()),
            Err(refused) => return Err(refused),
        }
    }

    /// Stores the item at a place of the list.
    #[tactic(auto, using(crate::proofs::ListLaws::joined_facts))]
    pub fn put<L: Ledger>(
        &mut self,
        alloc: Global,
        at: u64,
        item: T,
        steps: &mut Steps<L>,
    ) -> Result<(), (T, AllocError)>
        requires { at < length self.old }
        ensures ok { OnOk result (self.new ≡ slice_set self.old at item) }
        ensures item { IfErr result (λ e. e.0 ≡ item) }
        ensures same { OnErr result (self.new ≡ self.old) }
        ensures work { steps.new ≤ steps.old + 2 * dig (length self.old + 1) }
    {
        let mut given = Some(item);
        match self.put_given(alloc, at, &mut given, steps) {
            Ok(()) => return Ok(()),
            Err(refused) => match given {
                Some(item) => return Err((item, refused)),
                None => unreachable!(),
            },
        }
    }

    /// Adds the item at the end. A list of 2^64 - 1 items is not made longer: that is answered as want of memory.
    #[tactic(auto, using(crate::proofs::ListLaws::joined_facts))]
    pub fn push<L: Ledger>(
        &mut self,
        alloc: Global,
        item: T,
        steps: &mut Steps<L>,
    ) -> Result<(), (T, AllocError)>
        ensures ok { OnOk result (self.new ≡ self.old ++ item ∷ []) }
        ensures item { IfErr result (λ e. e.0 ≡ item) }
        ensures same { OnErr result (self.new ≡ self.old) }
        ensures work { steps.new ≤ steps.old + 2 * dig (length self.old + 1) }
    {
        if self.len == u64::MAX {
            return Err((item, AllocError));
        }
        let count = self.len - self.tree.len();
        if let Err(refused) = settle(alloc, &mut self.tree, &mut self.tail, count, steps) {
            return Err((item, refused));
        }
        match self
            .tail
            .push(alloc, self.len - self.tree.len(), item, steps)
        {
            Ok(()) => {
                self.len += 1;
                return Ok(());
            }
            Err(refused) => return Err(refused),
        }
    }

    /// The list with the item at a place of it.
    pub fn with<L: Ledger>(
        &self,
        alloc: Global,
        at: u64,
        item: T,
        steps: &mut Steps<L>,
    ) -> Result<Pages<T>, (T, AllocError)>
        requires { at < length self.now }
        ensures ok { IfOk result (λ pages. pages ≡ slice_set self.now at item) }
        ensures item { IfErr result (λ e. e.0 ≡ item) }
        ensures work { steps.new ≤ steps.old + 8 * dig (length self.now + 1) }
    {
        let mut pages = match self.snap() {
            Ok(pages) => pages,
            Err(refused) => return Err((item, refused)),
        };
        match pages.put(alloc, at, item, steps) {
            Ok(()) => Ok(pages),
            Err(refused) => Err(refused),
        }
    }

    /// The list with the item at its end. A list of 2^64 - 1 items is not made longer: that is answered as want of
    /// memory.
    pub fn with_pushed<L: Ledger>(
        &self,
        alloc: Global,
        item: T,
        steps: &mut Steps<L>,
    ) -> Result<Pages<T>, (T, AllocError)>
        ensures ok { IfOk result (λ pages. pages ≡ self.now ++ item ∷ []) }
        ensures item { IfErr result (λ e. e.0 ≡ item) }
        ensures work { steps.new ≤ steps.old + 8 * dig (length self.now + 1) }
    {
        let mut pages = match self.snap() {
            Ok(pages) => pages,
            Err(refused) => return Err((item, refused)),
        };
        match pages.push(alloc, item, steps) {
            Ok(()) => Ok(pages),
            Err(refused) => Err(refused),
        }
    }
}
