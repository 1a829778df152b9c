//! Numbers by vertices.
ghost use Rattle.vertex_planners.specs.RisingNumbers.{Rises, Rises-prop};

use crate::numbers::{Number, find};
use std::alloc::{AllocError, Global};

/// A number for each vertex, 0 for most: the others stand in a list, by rising vertices.
#[derive(Drop)]
pub struct Amounts {
    pub(crate) numbers: Vec<Number>,
    ghost rising: { Rises 0 numbers.items } by { Rises-prop 0 numbers.items },
}

impl Amounts {
    ghost use Rattle.std.specs.Prelude.{◌≡◌, ℕ, ◌+◌, ◌<◌, ◌≤◌, ◌==◌, if◌then◌else◌, None};
    ghost use Rattle.std.specs.Prelude.{IfSome, IfNone, OnErr, OnOk, IsSome};
    ghost use Rattle.vertex_planners.specs.Numbers.{kept_at, amount_at, count_of, HasKeysBelow, IsTaken};

    /// 0 for each vertex. It takes no memory.
    #[tactic(auto, unfolding(crate::specs::RisingNumbers::kept_in))]
    pub fn new(alloc: Global) -> Amounts
        ensures zero { (v : ℕ) → amount_at result v ≡ 0 }
        ensures keys { (most : ℕ) → HasKeysBelow most result }
        ensures count { count_of result ≡ 0 }
    {
        Amounts {
            numbers: Vec::new(alloc),
        }
    }

    /// So much more for one vertex. A sum past the greatest number is answered as want of memory. After that answer all
    /// numbers are as before.
    pub fn add(&mut self, vertex: u32, more: u64) -> Result<(), AllocError>
        ensures sum { OnOk result
            ((v : ℕ) → amount_at self.new v ≡ amount_at self.old v + (if vertex == v then more else 0)) }
        ensures same { OnErr result ((v : ℕ) → amount_at self.new v ≡ amount_at self.old v) }
        ensures keys { (most : ℕ) → vertex < most → HasKeysBelow most self.old → HasKeysBelow most self.new }
        ensures count { count_of self.new ≤ count_of self.old + 1 }
    {
        match find(self.numbers.as_slice(), vertex) {
            Ok(place) => {
                let Some(amount) = self.numbers[place].amount.checked_add(more) else {
                    return Err(AllocError);
                };
                self.numbers[place] = Number { vertex, amount };
                Ok(())
            }
            Err(place) => {
                let number = Number {
                    vertex,
                    amount: more,
                };
                match self.numbers.insert(place, number) {
                    Ok(()) => Ok(()),
                    Err(_) => Err(AllocError),
                }
            }
        }
    }

    /// The last vertex for which a number is kept; `None` exactly where there is none.
    pub(crate) fn last(&self) -> Option<u32>
        ensures some { IfSome result (λ v. IsSome (kept_at self.now v)) }
        ensures none { IfNone result ((v : ℕ) → kept_at self.now v ≡ None) }
    {
        match self.numbers.as_slice().last() {
            Some(number) => return Some(number.vertex),
            None => return None,
        }
    }

    /// Takes the vertex's number off, which is 0 from then on.
    pub(crate) fn take(&mut self, vertex: u32) -> u64
        ensures { IsTaken self.old self.new vertex result }
    {
        match find(self.numbers.as_slice(), vertex) {
            Ok(place) => self.numbers.remove(place).amount,
            Err(_) => 0,
        }
    }
}
