//! Sixteen parts of a node.
ghost use Rattle.std.specs.Prelude.{◌≡◌, ℕ, ◌<◌, Some, slice_get, replicate};
ghost use Rattle.std.specs.Borrow.{sem};
ghost use Rattle.node_store.specs.Lending.{LendsPart};
ghost use Rattle.node_store.specs.Parts.{parts_of};

use crate::node::Share;
use std::alloc::AllocError;

/// A value that can be empty.
pub trait Vacant: Sized {
    ghost vacant: { Self };

    /// The empty value. It takes no memory.
    fn vacant() -> Self
        ensures { result ≡ vacant };
}

/// Sixteen parts in an array: one of them is found by a shift and an addition.
#[derive(Drop)]
pub struct Sixteen<S> {
    parts: [S; 16],
}

impl<S> Sixteen<S> {
    /// The part at a place.
    #[inline(always)]
    pub fn get(&self, place: u64) -> &S
        requires { place < 16 }
        ensures { slice_get (parts_of self.now) place ≡ Some result.now }
    {
        &self.parts[place as usize]
    }

    /// The part at a place, to write to.
    #[inline(always)]
    pub fn get_mut(&mut self, place: u64) -> &mut S
        requires { place < 16 }
        ensures* writes_back { sem 𝓛 (LendsPart S.row self.entry place result) }
        ensures value { slice_get (parts_of self.old) place ≡ Some result.now }
    {
        &mut self.parts[place as usize]
    }
}

impl<S: Vacant> Sixteen<S> {
    /// Sixteen empty parts. They take no memory.
    pub fn vacant() -> Sixteen<S>
        ensures { parts_of result ≡ replicate 16 S.vacant }
    {
        Sixteen {
            parts: [
                S::vacant(),
                S::vacant(),
                S::vacant(),
                S::vacant(),
                S::vacant(),
                S::vacant(),
                S::vacant(),
                S::vacant(),
                S::vacant(),
                S::vacant(),
                S::vacant(),
                S::vacant(),
                S::vacant(),
                S::vacant(),
                S::vacant(),
                S::vacant(),
            ],
        }
    }
}

impl<S: Share + Drop> Share for Sixteen<S> {
    /// Sixteen equal parts, all made in one function.
    #[inline(always)]
    fn share(&self) -> Result<Sixteen<S>, AllocError> {
        Ok(Sixteen {
            parts: [
                self.parts[0].share()?,
                self.parts[1].share()?,
                self.parts[2].share()?,
                self.parts[3].share()?,
                self.parts[4].share()?,
                self.parts[5].share()?,
                self.parts[6].share()?,
                self.parts[7].share()?,
                self.parts[8].share()?,
                self.parts[9].share()?,
                self.parts[10].share()?,
                self.parts[11].share()?,
                self.parts[12].share()?,
                self.parts[13].share()?,
                self.parts[14].share()?,
                self.parts[15].share()?,
            ],
        })
    }
}
