//! Idsets that are asked for many ranks.
ghost use Rattle.std.specs.Prelude.{◌≡◌, ◌++◌, ◌==◌, ℕ, false, map, IfOk, OnOk};
ghost use Rattle.std.specs.List.{list_any, flat_map};
ghost use Rattle.std.specs.Option.{option_map_or};
ghost use Rattle.covered_numbers.specs.Covers.{is_covered};
ghost use Rattle.idset_text.specs.Idsets.{ids_of};
ghost use Rattle.node_constraints.specs.Ranked.{stretch_of, is_in_some};

use covered_numbers::{Covered, Stretch};
use flux_defs::List;
use idset_text::Range;
use std::alloc::{AllocError, Global};

/// Idsets, and the numbers of all their ranges.
#[derive(Drop)]
pub(crate) struct Ranks {
    sets: List<List<Range>>,
    covered: Covered,
    ghost told: { (id : ℕ) → is_covered covered id ≡ is_in_some sets id },
}

/// The numbers of a range.
fn stretch_of(range: &Range) -> Stretch
    ensures { result ≡ stretch_of range.now }
{
    Stretch {
        first: u128::from(range.lo),
        last: u128::from(range.hi),
    }
}

/// Adds the numbers of each range.
fn add_ranges(stretches: &mut Vec<Stretch>, ranges: &[Range]) -> Result<(), AllocError>
    ensures { OnOk result (stretches.new.items ≡ stretches.old.items ++ map stretch_of ranges.now) }
{
    'each: for range in ranges {
        stretches.push(stretch_of(range))?;
    }
    Ok(())
}

/// The numbers of the ranges of each set.
fn stretches_of(alloc: Global, sets: &[List<Range>]) -> Result<Vec<Stretch>, AllocError>
    ensures { IfOk result (λ stretches. stretches.items ≡ flat_map (map stretch_of) sets.now) }
{
    let mut stretches = Vec::new(alloc);
    'sets: for ranges in sets {
        add_ranges(&mut stretches, ranges.items())?;
    }
    Ok(stretches)
}

impl Ranks {
    /// The ids of these sets.
    pub(crate) fn of(alloc: Global, sets: List<List<Range>>) -> Result<Ranks, AllocError>
        ensures { IfOk result (λ ranks. ranks.sets ≡ sets) }
    {
        let stretches = stretches_of(alloc, sets.items())?;
        let covered = Covered::of(alloc, stretches)?;
        Ok(Ranks { sets, covered })
    }

    /// Whether there is a rank and it is one of the ids of some set. Logarithmic in the ranges.
    pub(crate) fn has(&self, rank: Option<u32>) -> bool
        ensures { result ≡ option_map_or
            (λ r. list_any (λ ranges. list_any (λ id. id == r) (ids_of ranges)) self.now.sets) rank false }
    {
        match rank {
            Some(rank) => self.covered.has(u128::from(rank)),
            None => false,
        }
    }
}
