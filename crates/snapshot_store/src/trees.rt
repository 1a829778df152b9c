//! Trees of a list's full rows: of the items of a list all but the last few, in parts of sixteen.
ghost use Rattle.std.specs.Prelude.{◌≡◌, ℕ, ◌+◌, ◌*◌, ◌^◌, ◌<◌, ◌≤◌, List, [], ◌++◌, length, slice_get, slice_set};
ghost use Rattle.std.specs.Prelude.{Some, IfOk, IfErr, OnOk, OnErr};
ghost use Rattle.flux_defs.specs.Digits.{dig};
ghost use Rattle.snapshot_store.specs.Parts.{IsPart, IsFull};
ghost use Rattle.snapshot_store.specs.Places.{IsGiven};

use crate::changes::Change;
use crate::parts::Part;
use flux_defs::Steps;
use node_store::{Share, Vacant};
use std::alloc::{AllocError, Global};
use std::marker::Model;
use std::mem;
use std::sync::ledger::Ledger;

/// A list that only grows by sixteen items at a time; contracts see just the list. Each change is made in the pages
/// that no other tree holds and in copies of the others.
#[derive(Drop)]
pub struct Tree<T: Drop> {
    height: u64,
    len: u64,
    root: Part<T>,
}

impl<T: Drop> Model for Tree<T> {
    ghost use Rattle.std.specs.Prelude.{List};

    ghost Value = { List T };

    ghost use Rattle.snapshot_store.specs.Trees.{IsTree};

    ghost view = { λ tree. tree.root.0 };

    ghost invariant = { λ tree. IsTree tree };
}

impl<T: Drop> Share for Tree<T> {
    fn share(&self) -> Result<Tree<T>, AllocError> {
        let root = self.root.share()?;
        Ok(Tree {
            height: self.height,
            len: self.len,
            root,
        })
    }
}

/// The root of a tree and its height, made one higher where it has no room for more items.
#[tactic(auto, using(crate::proofs::ListLaws::list_facts))]
fn roomy<T: Drop>(
    alloc: Global,
    height: u64,
    len: u64,
    root: Part<T>,
) -> Result<(u64, Part<T>), (Part<T>, AllocError)>
    requires part { IsPart height root }
    requires len { len ≡ length root.0 }
    requires low { 1 ≤ height }
    requires high { height ≤ 16 }
    requires tight { 2 ^ (4 * height) ≤ 16 * len + 16 }
    ensures items { IfOk result (λ r. r.1.0 ≡ root.0) }
    ensures part { IfOk result (λ r. IsPart r.0 r.1) }
    ensures low { IfOk result (λ r. 1 ≤ r.0) }
    ensures high { IfOk result (λ r. r.0 ≤ 16) }
    ensures tight { IfOk result (λ r. 2 ^ (4 * r.0) ≤ 16 * len + 16) }
    ensures room { IfOk result (λ r. len < 2 ^ (4 * r.0)) }
    ensures same { IfErr result (λ e. e.0 ≡ root) }
{
    if height == 16 || len < 1u64 << (4 * height) {
        return Ok((height, root));
    }
    match root.raised(alloc, height) {
        Ok(root) => Ok((height + 1, root)),
        Err(refused) => Err(refused),
    }
}

impl<T: Share + Drop> Tree<T> {
    /// Changes the item at a place where it stands. Where no memory is left some item stands there.
    #[tactic(auto, using(crate::proofs::ListLaws::list_facts))]
    pub fn change<C: Change<T>, L: Ledger>(
        &mut self,
        alloc: Global,
        at: u64,
        change: &C,
        steps: &mut Steps<L>,
    ) -> Result<(), AllocError>
        requires within { at < length self.old }
        requires fits { (x : T) → slice_get self.old at ≡ Some x → C.fits change.now x }
        ensures new { (y : T) × (self.new ≡ slice_set self.old at y)
            × OnOk result ((x : T) → slice_get self.old at ≡ Some x → C.makes change.now x y) }
        ensures work { (x : T) (most : ℕ) → slice_get self.old at ≡ Some x → C.takes change.now x most →
            steps.new ≤ steps.old + (2 * dig (length self.old + 1) + most) }
    {
        let _len = self.len;
        match self.root.change(alloc, at, change, steps) {
            Ok(()) => return Ok(()),
            Err(refused) => return Err(refused),
        }
    }
}

impl<T: Drop> Tree<T> {
    /// The empty tree. It takes no memory.
    #[tactic(auto, using(crate::proofs::ListLaws::list_facts))]
    pub fn empty() -> Tree<T>
        ensures { result ≡ [] }
    {
        Tree {
            height: 1,
            len: 0,
            root: Part::vacant(),
        }
    }

    /// How many items it has. It takes no memory.
    #[inline(always)]
    pub fn len(&self) -> u64
        ensures { result ≡ length self.now }
    {
        self.len
    }

    /// The item at a place. It takes no memory.
    #[inline(always)]
    #[tactic(auto, using(crate::proofs::ListLaws::list_facts))]
    pub fn get<L: Ledger>(&self, at: u64, steps: &mut Steps<L>) -> &T
        requires { at < length self.now }
        ensures value { slice_get self.now at ≡ Some result.now }
        ensures work { steps.new ≤ steps.old + 2 * dig (length self.now + 1) }
        ensures counted { steps.old ≤ steps.new }
    {
        self.root.get(self.height, at, steps)
    }

    /// Stores the item that is given at a place, and takes it. Where no memory is left it isn't taken.
    #[tactic(auto, using(crate::proofs::ListLaws::list_facts))]
    pub fn put<L: Ledger>(
        &mut self,
        alloc: Global,
        at: u64,
        given: &mut Option<T>,
        steps: &mut Steps<L>,
    ) -> Result<(), AllocError>
        requires within { at < length self.old }
        requires some { IsGiven given.old }
        ensures new { OnOk result ((item : T) → given.old ≡ Some item → self.new ≡ slice_set self.old at item) }
        ensures given { OnErr result (given.new ≡ given.old) }
        ensures same { OnErr result (self.new ≡ self.old) }
        ensures work { steps.new ≤ steps.old + 2 * dig (length self.old + 1) }
    {
        let _len = self.len;
        match self.root.put(alloc, at, given, steps) {
            Ok(()) => return Ok(()),
            Err(refused) => return Err(refused),
        }
    }

    /// Adds the items of a full part at the end. Where no memory is left the tree is as before.
    #[tactic(auto, using(crate::proofs::ListLaws::list_facts))]
    pub fn append<L: Ledger>(
        &mut self,
        alloc: Global,
        full: &Part<T>,
        steps: &mut Steps<L>,
    ) -> Result<(), AllocError>
        requires full { IsFull full.now }
        requires fits { length self.old + 16 < 2 ^ 64 }
        ensures new { OnOk result (self.new ≡ self.old ++ full.now.0) }
        ensures same { OnErr result (self.new ≡ self.old) }
        ensures work { steps.new + 1 ≤ steps.old + dig (length self.old + 1) }
    {
        let old = mem::replace(&mut self.root, Part::vacant());
        match roomy(alloc, self.height, self.len, old) {
            Ok((height, mut root)) => match root.append(alloc, height, self.len, full, steps) {
                Ok(()) => {
                    self.root = root;
                    self.height = height;
                    self.len += 16;
                    return Ok(());
                }
                Err(refused) => {
                    self.root = root;
                    self.height = height;
                    return Err(refused);
                }
            },
            Err((old, refused)) => {
                self.root = old;
                return Err(refused);
            }
        }
    }
}
