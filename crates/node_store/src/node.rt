//! Shared values.
ghost use Rattle.std.specs.Prelude.{◌≡◌, ◌+◌, IfOk, IfSome, IfErr, OnOk};
ghost use Rattle.std.specs.Borrow.{sem};

use flux_defs::Steps;
use std::alloc::{AllocError, AllocFailed, Global};
use std::marker::Model;
use std::sync::Arc;
use std::sync::ledger::Ledger;

/// A value of which equal ones can be made, at a cost that doesn't grow with what is below it.
pub trait Share: Sized {
    /// An equal value.
    fn share(&self) -> Result<Self, AllocError>
        ensures { IfOk result (λ same. same ≡ self.now) };
}

/// A shared value. Contracts see the value itself; it never changes while two hold it.
pub struct Node<T> {
    arc: Arc<T, Global>,
}

impl<T> Model for Node<T> {
    ghost Value = { T };

    ghost coded = { T.code };

    ghost view = { λ node. node.arc.value };
}

impl<T: Drop> Drop for Node<T> {
    fn drop(self) {
        let Node { arc: _ } = self;
    }
}

impl<T> Node<T> {
    ghost use Rattle.node_store.specs.Lending.{LendsValue};

    /// A node that holds the item. Where no memory is left the item comes back.
    pub fn new(alloc: Global, item: T) -> Result<Node<T>, (T, AllocError)>
        ensures ok { IfOk result (λ node. node ≡ item) }
        ensures err { IfErr result (λ e. e.0 ≡ item) }
    {
        match Arc::new(alloc, item) {
            Ok(arc) => Ok(Node { arc }),
            Err(refused) => {
                let AllocFailed { value, .. } = refused;
                Err((value, AllocError))
            }
        }
    }

    /// The value. It takes one step and no memory.
    pub fn look<L: Ledger>(&self, steps: &mut Steps<L>) -> &T
        ensures value { result.now ≡ self.now }
        ensures work { steps.new ≡ steps.old + 1 }
    {
        steps.tick();
        &self.arc
    }

    /// The value to write to, and `None` where another node holds it too: after `own` there is none.
    /// It takes no step: a caller that counts ticks for itself, and may then read and write.
    pub fn get_mut(&mut self) -> Option<&mut T>
        ensures* writes_back { sem 𝓛 (LendsValue T.row self.entry result) }
        ensures value { IfSome result (λ value. value.now ≡ self.old) }
    {
        Arc::get_mut(&mut self.arc)
    }
}

impl<T: Drop> Node<T> {
    /// A node that holds the item. Where no memory is left the item is dropped: here its type is any type, and what
    /// drops one of sixteen parts takes minutes to check.
    pub fn of(alloc: Global, item: T) -> Result<Node<T>, AllocError>
        ensures { IfOk result (λ node. node ≡ item) }
    {
        match Node::new(alloc, item) {
            Ok(node) => Ok(node),
            Err((_, refused)) => Err(refused),
        }
    }

    /// From now on this node holds the item; others that held the same value keep it. Where no memory is left the item
    /// comes back, and the node is as before.
    pub fn set(&mut self, alloc: Global, item: T) -> Result<(), (T, AllocError)>
        ensures ok { OnOk result (self.new ≡ item) }
        ensures err { IfErr result (λ e. (self.new ≡ self.old) × (e.0 ≡ item)) }
    {
        if let Some(place) = self.get_mut() {
            *place = item;
            return Ok(());
        }
        match Node::new(alloc, item) {
            Ok(node) => {
                *self = node;
                return Ok(());
            }
            Err(refused) => return Err(refused),
        }
    }
}

impl<T: Share + Drop> Node<T> {
    /// Makes this a node that no other holds, by a copy where another does. It holds the same value, after want of
    /// memory too.
    #[inline]
    pub fn own(&mut self, alloc: Global) -> Result<(), AllocError>
        ensures { self.new ≡ self.old }
    {
        if Arc::strong_count(&self.arc) == 1 {
            return Ok(());
        }
        self.copy(alloc)
    }

    /// Makes this another node, which holds an equal value. It stands alone, so that a call of `own` that copies
    /// nothing has no room to clear for a copy.
    #[inline(never)]
    fn copy(&mut self, alloc: Global) -> Result<(), AllocError>
        ensures { self.new ≡ self.old }
    {
        let copy = T::share(&self.arc)?;
        match Node::new(alloc, copy) {
            Ok(node) => {
                *self = node;
                Ok(())
            }
            Err(_) => Err(AllocError),
        }
    }
}

impl<T> Share for Node<T> {
    /// Another node that holds the same value.
    fn share(&self) -> Result<Node<T>, AllocError> {
        let arc = Arc::try_clone(&self.arc)?;
        Ok(Node { arc })
    }
}
