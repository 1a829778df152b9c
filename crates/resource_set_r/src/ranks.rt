//! The ranks of a resource set, and their children.
ghost use Rattle.std.specs.Prelude.{◌≡◌, ◌∷◌, ◌≤◌, List, map, IfOk, IsSome, All, codes};
ghost use Rattle.std.specs.List.{flat_map};
ghost use Rattle.std.specs.List.Sorted.{IsPermutation, IsNonDecreasingBy};
ghost use Rattle.serde_json.specs.Find.{as_object, get};
ghost use Rattle.json_whole.specs.Values.{view, items_view};
ghost use Rattle.resource_set_r.specs.Misreads.{IsResultOf};
ghost use Rattle.resource_set_r.specs.ReadRows.{idset_text_at, idset_or_none, idset_field, row_with, row_in, row_of};
ghost use Rattle.resource_set_r.specs.ReadRows.{rows_from, rows_in, ranges_in, overlap_from, IsRepeatedRank};

use crate::faults::{FieldPath, Misread, ReadError};
use crate::fields::{list_at, object_at, object_of, text_at, text_value};
use crate::sets_read::RRow;
use flux_defs::List;
use idset_text::{Range, TextFault, read_idset};
use json::Value;
use json_whole::get;
use std::alloc::{AllocError, Global};

/// The idset that a text is.
fn idset_text_at(alloc: Global, field: FieldPath, text: &str) -> Result<List<Range>, ReadError>
    ensures { IsResultOf result (idset_text_at field text.now) }
{
    match read_idset(alloc, text.as_bytes()) {
        Ok(ranges) => Ok(ranges),
        Err(TextFault::Form { .. }) => Err(ReadError::Misread(Misread::Idset { field })),
        Err(TextFault::Memory) => Err(ReadError::Memory),
    }
}

/// The idset at a key, and nothing where there is none.
fn idset_or_none(
    alloc: Global,
    value: &Value,
    key: &str,
    field: FieldPath,
) -> Result<List<Range>, ReadError>
    ensures { IsResultOf result (idset_or_none field (get key.now (view value.now))) }
{
    let Some(found) = get(value, key) else {
        return Ok(List::new(alloc));
    };
    match text_value(found, field) {
        Ok(text) => idset_text_at(alloc, field, text),
        Err(misread) => Err(ReadError::Misread(misread)),
    }
}

/// The idset at a key.
fn idset_field(
    alloc: Global,
    value: &Value,
    key: &str,
    field: FieldPath,
) -> Result<List<Range>, ReadError>
    requires { IsSome (as_object (view value.now)) }
    ensures { IsResultOf result (idset_field field key.now (view value.now)) }
{
    match text_at(value, key, field) {
        Ok(text) => idset_text_at(alloc, field, text),
        Err(misread) => Err(ReadError::Misread(misread)),
    }
}

/// The element of these ranks with these children.
fn row_with(alloc: Global, at: u64, ranks: List<Range>, children: &Value) -> Result<RRow, ReadError>
    ensures { IsResultOf result (row_with at ranks (view children.now)) }
{
    let cores = match idset_or_none(alloc, children, "core", FieldPath::Core { at }) {
        Ok(cores) => cores,
        Err(fault) => return Err(fault),
    };
    match idset_or_none(alloc, children, "gpu", FieldPath::Gpu { at }) {
        Ok(gpus) => Ok(RRow { ranks, cores, gpus }),
        Err(fault) => Err(fault),
    }
}

/// The element that an object is.
fn row_in(alloc: Global, at: u64, value: &Value) -> Result<RRow, ReadError>
    requires { IsSome (as_object (view value.now)) }
    ensures { IsResultOf result (row_in at (view value.now)) }
{
    let ranks = match idset_field(alloc, value, "rank", FieldPath::Rank { at }) {
        Ok(ranks) => ranks,
        Err(fault) => return Err(fault),
    };
    match object_at(value, "children", FieldPath::Children { at }) {
        Ok(children) => row_with(alloc, at, ranks, children),
        Err(misread) => Err(ReadError::Misread(misread)),
    }
}

/// The element that the value with this index is.
fn row_of(alloc: Global, at: u64, value: &Value) -> Result<RRow, ReadError>
    ensures { IsResultOf result (row_of at (view value.now)) }
{
    match object_of(value, FieldPath::Row { at }) {
        Ok(row) => row_in(alloc, at, row),
        Err(misread) => Err(ReadError::Misread(misread)),
    }
}

/// The elements of a list.
fn rows_from(alloc: Global, values: &[Value]) -> Result<List<RRow>, ReadError>
    ensures { IsResultOf result (rows_from 0 (items_view values.now)) }
{
    let mut rows = Vec::new(alloc);
    'rows: for (at, value) in values.iter().enumerate() {
        let row = match row_of(alloc, at as u64, value) {
            Ok(row) => row,
            Err(fault) => return Err(fault),
        };
        if rows.push(row).is_err() {
            return Err(ReadError::Memory);
        }
    }
    Ok(List::of_vec(rows))
}

/// The elements of `R_lite`.
pub(crate) fn rows_in(alloc: Global, execution: &Value) -> Result<List<RRow>, ReadError>
    ensures { IsResultOf result (rows_in (view execution.now)) }
{
    match list_at(execution, "R_lite", FieldPath::RLite) {
        Ok(values) => rows_from(alloc, values.as_slice()),
        Err(misread) => Err(ReadError::Misread(misread)),
    }
}

/// The ranges of the elements' ranks.
pub(crate) fn ranges_in(alloc: Global, rows: &[RRow]) -> Result<Vec<Range>, AllocError>
    ensures { IfOk result (λ ranges. ranges.items ≡ ranges_in rows.now) }
{
    let mut ranges = Vec::new(alloc);
    'rows: for row in rows {
        ranges.extend_from_slice(row.ranks.items())?;
    }
    Ok(ranges)
}

/// The least start of a range that lies on the one before; the ranges are sorted by their starts.
fn first_overlap(first: Range, others: &[Range]) -> Option<u32>
    ensures { result ≡ overlap_from first others.now }
{
    let mut last = first;
    'spans: for range in others {
        if range.lo <= last.hi {
            return Some(range.lo);
        }
        last = *range;
    }
    None
}

/// The least rank that two of the ranges have; they end up sorted by their starts.
pub(crate) fn repeated_rank(ranges: &mut Vec<Range>) -> Option<u32>
    requires { All (λ range. range.lo ≤ range.hi) ranges.old.items }
    ensures found { IsRepeatedRank ranges.old.items result }
    ensures permutation { IsPermutation ranges.old.items ranges.new.items }
{
    ranges.sort_unstable_by_key(|range| range.lo);
    match ranges.as_slice() {
        [] => None,
        [first, others @ ..] => first_overlap(*first, others),
    }
}
