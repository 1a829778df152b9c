//! The ranks of a resource set in rising order, with their elements.
ghost use Rattle.std.specs.Prelude.{◌≡◌, ◌+◌, ◌-◌, ◌++◌, None, map, IfOk, OnOk};
ghost use Rattle.std.specs.List.Sorted.{IsStrictlyIncreasing, IsPermutation};
ghost use Rattle.resource_set_r.specs.ReadRows.{ranges_in, IsRepeatedRank};
ghost use Rattle.graph_from_r.specs.Places.{placed, places_of, places_from};
ghost use Rattle.idset_text.specs.Idsets.{ids_from};

use resource_set_r::RRow;
use std::alloc::{AllocError, Global};

/// A rank, and the index of its element.
#[derive(Clone, Copy, PartialEq, Eq)]
pub(crate) struct Place {
    pub rank: u32,
    pub row: usize,
}

/// Adds the ranks of a range of the element with this index.
fn add_range(places: &mut Vec<Place>, row: usize, lo: u32, hi: u32) -> Result<(), AllocError>
    ensures { OnOk result (places.new.items ≡ places.old.items ++ placed row (ids_from (hi + 1 - lo) lo)) }
{
    'ranks: for rank in u64::from(lo)..u64::from(hi) + 1 {
        places.push(Place {
            rank: rank as u32,
            row,
        })?;
    }
    Ok(())
}

/// Adds the ranks of the element with this index.
fn add_row(places: &mut Vec<Place>, at: usize, row: &RRow) -> Result<(), AllocError>
    ensures { OnOk result (places.new.items ≡ places.old.items ++ places_of at row.now.ranks) }
{
    'each: for range in row.ranks.items() {
        add_range(places, at, range.lo, range.hi)?;
    }
    Ok(())
}

/// The ranks of the elements in their order.
fn unsorted(alloc: Global, rows: &[RRow]) -> Result<Vec<Place>, AllocError>
    ensures { IfOk result (λ places. places.items ≡ places_from 0 rows.now) }
{
    let mut places = Vec::new(alloc);
    'rows: for (at, row) in rows.iter().enumerate() {
        add_row(&mut places, at, row)?;
    }
    Ok(places)
}

/// The ranks in rising order.
pub(crate) fn places_of(alloc: Global, rows: &[RRow]) -> Result<Vec<Place>, AllocError>
    requires { IsRepeatedRank (ranges_in rows.now) None }
    ensures rising { IfOk result (λ places. IsStrictlyIncreasing (map (λ p. p.rank) places.items)) }
    ensures same { IfOk result (λ places. IsPermutation (places_from 0 rows.now) places.items) }
{
    let mut places = unsorted(alloc, rows)?;
    places.sort_unstable_by_key(|place| place.rank);
    Ok(places)
}
