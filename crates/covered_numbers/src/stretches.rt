//! Stretches of numbers.
ghost use Rattle.std.specs.Prelude.{◌≡◌, ℕ, IfOk};
ghost use Rattle.covered_numbers.specs.Covers.{is_covered, raised};
ghost use Rattle.std.specs.List.Sorted.{IsNonDecreasingBy};

use std::alloc::{AllocError, Global};
use std::marker::Model;

/// The numbers from the first up to and with the last; none where the last is less.
#[derive(Clone, Copy, Debug, PartialEq, Eq)]
pub struct Stretch {
    pub first: u128,
    pub last: u128,
}

/// Stretches, of which each later one neither begins nor ends before an earlier one. Contracts see the list of them.
#[derive(Drop)]
pub struct Covered {
    stretches: Vec<Stretch>,
    ghost begin: { IsNonDecreasingBy (λ s. s.first) stretches.items },
    ghost end: { IsNonDecreasingBy (λ s. s.last) stretches.items },
}

impl Model for Covered {
    ghost use Rattle.std.specs.Prelude.{List};
    ghost use Rattle.covered_numbers.specs.declared.stretches.Stretch.{Stretch};

    ghost Value = { List Stretch };

    ghost view = { λ covered. covered.stretches.items };
}

/// Each stretch up to the greatest last number of those before it and its own.
fn raised(alloc: Global, stretches: &[Stretch]) -> Result<Vec<Stretch>, AllocError>
    ensures { IfOk result (λ longer. longer.items ≡ raised 0 stretches.now) }
{
    let mut longer = Vec::with_capacity(alloc, stretches.len())?;
    let mut last = 0;
    'stretches: for stretch in stretches {
        last = stretch.last.max(last);
        longer.push(Stretch {
            first: stretch.first,
            last,
        })?;
    }
    Ok(longer)
}

impl Covered {
    /// The numbers of these stretches.
    pub fn of(alloc: Global, mut stretches: Vec<Stretch>) -> Result<Covered, AllocError>
        ensures { IfOk result
            (λ covered. (number : ℕ) → is_covered covered number ≡ is_covered stretches.items number) }
    {
        stretches.sort_unstable_by_key(|stretch| stretch.first);
        let longer = raised(alloc, stretches.as_slice())?;
        Ok(Covered { stretches: longer })
    }

    /// Whether some stretch has the number. Logarithmic in the stretches.
    pub fn has(&self, number: u128) -> bool
        ensures { result ≡ is_covered self.now number }
    {
        let stretches = self.stretches.as_slice();
        let begun = stretches.partition_point(|stretch| stretch.first <= number);
        if begun == 0 {
            return false;
        }
        number <= stretches[begun - 1].last
    }
}
