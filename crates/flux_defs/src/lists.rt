//! A list of items, over a `Vec`.
ghost use Rattle.std.specs.Prelude.{◌≡◌, ◌<◌, ◌↔◌, IsTrue, Some, [], ◌∷◌, ◌++◌, length, slice_get, slice_set, IfErr};
ghost use Rattle.std.specs.Prelude.{MatchOption, OnOk, OnSome, IfSome, IsSome};
ghost use Rattle.std.specs.Option.{option_copied};
ghost use Rattle.std.specs.Borrow.{sem};

use std::alloc::{AllocError, AllocFailed, Global};
use std::marker::Model;
use std::mem;

/// A `Vec` that contracts see as the list of its items, so that a clause can compare it with a definition's list.
#[derive(Debug, Drop)]
pub struct List<T> {
    held: Vec<T>,
}

impl<T> Model for List<T> {
    ghost use Rattle.std.specs.Prelude.{List};
    ghost use Rattle.std.specs.Coded.{coded_list};

    ghost Value = { List T };

    ghost coded = { coded_list T.code };

    ghost view = { λ list. list.held.items };
}

impl<T> List<T> {
    ghost use Rattle.flux_defs.specs.Lending.{LendsItem};

    /// The empty list; it takes no memory, and its later calls take theirs from `alloc`.
    pub fn new(alloc: Global) -> List<T>
        ensures { result ≡ [] }
    {
        List {
            held: Vec::new(alloc),
        }
    }

    /// The items of a `Vec`. It takes no memory.
    pub fn of_vec(items: Vec<T>) -> List<T>
        ensures { result ≡ items.items }
    {
        List { held: items }
    }

    /// The `Vec` of its items. It takes no memory.
    pub fn into_vec(self) -> Vec<T>
        ensures { result.items ≡ self }
    {
        let List { held } = self;
        held
    }

    /// Its items as a slice.
    pub fn items(&self) -> &[T]
        ensures { result.now ≡ self.now }
    {
        self.held.as_slice()
    }

    /// How many items it has.
    pub fn len(&self) -> usize
        ensures { result ≡ length self.now }
    {
        self.held.len()
    }

    /// Whether it has no item.
    pub fn is_empty(&self) -> bool
        ensures { IsTrue result ↔ (self.now ≡ []) }
    {
        self.held.is_empty()
    }

    /// The item at an index from 0, and `None` exactly from the list's end on.
    pub fn get(&self, at: usize) -> Option<&T>
        ensures value { option_copied result ≡ slice_get self.now at }
        ensures within { OnSome result (at < length self.now) }
    {
        self.held.get(at)
    }

    /// The item at an index from 0 to write to, and `None` exactly from the list's end on.
    pub fn get_mut(&mut self, at: usize) -> Option<&mut T>
        ensures* writes_back { sem 𝓛 (LendsItem T.row self.entry at result) }
        ensures some { IsSome result ↔ (at < length self.old) }
        ensures value { IfSome result (λ item. slice_get self.old at ≡ Some item.now) }
    {
        self.held.get_mut(at)
    }

    /// Takes the last item off; `None` exactly where the list is empty.
    pub fn pop(&mut self) -> Option<T>
        ensures { MatchOption result ((self.old ≡ []) × (self.new ≡ [])) (λ last. self.old ≡ self.new ++ last ∷ []) }
    {
        self.held.pop()
    }

    /// Stores the item at an index of the list, and gives the one that stood there. It takes no memory.
    pub fn put(&mut self, at: usize, item: T) -> T
        requires { at < length self.old }
        ensures old { slice_get self.old at ≡ Some result }
        ensures new { self.new ≡ slice_set self.old at item }
    {
        mem::replace(&mut self.held[at], item)
    }

    /// Adds the item at the end. Where no memory is left the item comes back, and the list is as before.
    pub fn push(&mut self, item: T) -> Result<(), (T, AllocError)>
        ensures ok { OnOk result (self.new ≡ self.old ++ item ∷ []) }
        ensures err { IfErr result (λ e. (self.new ≡ self.old) × (e.0 ≡ item)) }
    {
        match self.held.push(item) {
            Ok(()) => Ok(()),
            Err(AllocFailed { value }) => Err((value, AllocError)),
        }
    }
}
