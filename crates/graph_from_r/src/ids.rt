//! The ids of ranges, one by one.
ghost use Rattle.std.specs.Prelude.{◌≡◌, ◌++◌, IfOk, OnOk};
ghost use Rattle.idset_text.specs.Idsets.{ids_between, ids_of};

use flux_defs::List;
use idset_text::Range;
use std::alloc::{AllocError, Global};

/// Adds the ids of a range.
fn add_ids(ids: &mut Vec<u32>, range: &Range) -> Result<(), AllocError>
    ensures { OnOk result (ids.new.items ≡ ids.old.items ++ ids_between range.now) }
{
    'one_by_one: for id in u64::from(range.lo)..u64::from(range.hi) + 1 {
        ids.push(id as u32)?;
    }
    Ok(())
}

/// The ids that the ranges stand for, in order.
pub(crate) fn ids_of(alloc: Global, ranges: &[Range]) -> Result<List<u32>, AllocError>
    ensures { IfOk result (λ ids. ids ≡ ids_of ranges.now) }
{
    let mut ids = Vec::new(alloc);
    'each: for range in ranges {
        add_ids(&mut ids, range)?;
    }
    Ok(List::of_vec(ids))
}
