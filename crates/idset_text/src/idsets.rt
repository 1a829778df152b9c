//! Idsets: texts of ids (RFC 22).
ghost use Rattle.std.specs.Prelude.{◌≡◌, Ok, ℕ, ◌+◌, ◌<◌, ◌^◌, ◌↔◌, ◌∷◌, ◌++◌, length, decimal, All, Contains, IsTrue};
ghost use Rattle.std.specs.Prelude.{IfOk, IfSome, OnOk};
ghost use Rattle.std.specs.List.{list_any};
ghost use Rattle.std.specs.List.Sorted.{IsStrictlyIncreasing};
ghost use Rattle.flux_defs.specs.declared.limits.TheConstants.{NO_ID};
ghost use Rattle.idset_text.specs.Faults.{IsResultOf};
ghost use Rattle.idset_text.specs.Items.{items_of};
ghost use Rattle.idset_text.specs.Idsets.{id_of, range_of, range_from, ranges_of, idset_of, IsIdset, Rises, is_within};
ghost use Rattle.idset_text.specs.Idsets.{ids_of, range_text, idset_text, IsIdsetOf, IsShortestOf};

use crate::faults::TextFault;
use crate::items::{ends, first_item};
use crate::numbers::{leads_with_zero, number};
use flux_defs::{List, NO_ID, Text};
use std::alloc::{AllocError, Global};
use text_forms::push_decimal;

/// The ids from `lo` up to and with `hi`.
#[derive(Clone, Copy, Debug, PartialEq, Eq)]
pub struct Range {
    pub lo: u32,
    pub hi: u32,
}

impl Range {
    /// Whether the id is one of the range's.
    pub fn contains(&self, id: u32) -> bool
        ensures { result ≡ is_within self.now id }
    {
        self.lo <= id && id <= self.hi
    }
}

/// The id that the bytes write.
fn id(bytes: &[u8]) -> Option<u32>
    ensures value { result ≡ id_of bytes.now }
    ensures small { IfSome result (λ id. id < NO_ID) }
{
    if leads_with_zero(bytes) {
        return None;
    }
    match number(bytes) {
        Some(number) if number < NO_ID => Some(number),
        _ => None,
    }
}

/// The range that an item writes.
fn item_range(item: &[u8]) -> Option<Range>
    ensures value { result ≡ range_of item.now }
    ensures small { IfSome result (λ range. range.hi < NO_ID) }
{
    let (first, last) = ends(item);
    let lo = id(first)?;
    let hi = id(last)?;
    if lo <= hi {
        Some(Range { lo, hi })
    } else {
        None
    }
}

/// The range that an item writes, if it begins at `least` or above.
fn range_at_least(least: u32, item: &[u8]) -> Option<Range>
    ensures value { result ≡ range_from least item.now }
    ensures small { IfSome result (λ range. range.hi < NO_ID) }
{
    let range = item_range(item)?;
    if least <= range.lo { Some(range) } else { None }
}

/// The ranges of a text's items, each above the one before. The text's first byte has the place `start`.
fn read_ranges(alloc: Global, text: &[u8], start: usize) -> Result<List<Range>, TextFault>
    requires { start + length text.now < 2 ^ 64 }
    ensures { IsResultOf result (ranges_of 0 (items_of start text.now)) }
{
    let mut ranges = Vec::new(alloc);
    let mut rest = text;
    let mut at = start;
    let mut least = 0;
    'items: loop {
        let (item, more) = first_item(rest);
        let Some(range) = range_at_least(least, item) else {
            return Err(TextFault::Form { at });
        };
        if ranges.push(range).is_err() {
            return Err(TextFault::Memory);
        }
        let Some(next) = more else {
            return Ok(List::of_vec(ranges));
        };
        at += item.len() + 1;
        least = range.hi + 1;
        rest = next;
    }
}

/// What the text is read as.
fn read(alloc: Global, text: &[u8]) -> Result<List<Range>, TextFault>
    ensures { IsResultOf result (idset_of text.now) }
{
    match text {
        [] => Ok(List::new(alloc)),
        [b'[', inner @ .., b']'] => read_ranges(alloc, inner, 1),
        _ => read_ranges(alloc, text, 0),
    }
}

/// The ranges of an idset, rising and apart: nothing, or a comma list of `ID` and `LO-HI`, maybe in one pair of
/// brackets, with ids up to 4294967294 and without leading zeros, each item above the one before (RFC 22). The fault
/// `Form` names the first byte of the first item that breaks this; brackets that stand round the whole text belong to
/// no item.
pub fn read_idset(alloc: Global, text: &[u8]) -> Result<List<Range>, TextFault>
    // What is read is in the grammar, and what is in the grammar is read, unless memory runs out.
    ensures found { IfOk result (λ ranges. IsIdset text.now ranges) }
    ensures only { (ranges : List Range) → IsIdset text.now ranges → IsResultOf result (Ok ranges) }
    ensures rising { IfOk result (λ ranges. Rises 0 ranges) }

    // A fault stands at the first item that breaks the grammar.
    ensures exact { IsResultOf result (idset_of text.now) }
{
    read(alloc, text)
}

/// Whether one of the ranges has the id.
fn any_contains(ranges: &[Range], id: u32) -> bool
    ensures { result ≡ list_any (λ range. is_within range id) ranges.now }
{
    ranges.iter().any(|range| range.contains(id))
}

/// Whether the id is one of those that the ranges stand for.
pub fn has_id(ranges: &List<Range>, id: u32) -> bool
    ensures { IsTrue result ↔ Contains (ids_of ranges.now) id }
{
    any_contains(ranges.items(), id)
}

/// Writes a run at the end.
fn push_run(text: &mut Vec<u8>, run: Range) -> Result<(), AllocError>
    ensures ok { OnOk result (text.new.items ≡ text.old.items ++ range_text run) }
{
    push_decimal(text, u64::from(run.lo))?;
    if run.lo != run.hi {
        text.push(b'-')?;
        push_decimal(text, u64::from(run.hi))?;
    }
    Ok(())
}

/// The text of the ids from the first on.
fn text_from(alloc: Global, first: u32, others: &[u32]) -> Result<Vec<u8>, AllocError>
    ensures { IfOk result (λ text. text.items ≡ idset_text (first ∷ others.now)) }
{
    let mut text = Vec::new(alloc);
    let mut lo = first;
    let mut hi = first;
    'ids: for id in others {
        if u64::from(*id) != u64::from(hi) + 1 {
            push_run(&mut text, Range { lo, hi })?;
            text.push(b',')?;
            lo = *id;
        }
        hi = *id;
    }
    push_run(&mut text, Range { lo, hi })?;
    Ok(text)
}

/// The text of the ids.
fn text_of(alloc: Global, ids: &[u32]) -> Result<Vec<u8>, AllocError>
    ensures { IfOk result (λ text. text.items ≡ idset_text ids.now) }
{
    match ids {
        [] => Ok(Vec::new(alloc)),
        [first, others @ ..] => text_from(alloc, *first, others),
    }
}

/// The shortest idset of ids that rise strictly (RFC 22): each longest run of two or more ids that follow one another
/// is `LO-HI`. Read again it gives the ids, unless one of them is 4294967295, which is no id.
pub fn write_idset(alloc: Global, ids: &List<u32>) -> Result<Text, AllocError>
    requires { IsStrictlyIncreasing ids.now }
    ensures text { IfOk result (λ text. text ≡ idset_text ids.now) }
    ensures again { IfOk result (λ text. All (λ id. id < NO_ID) ids.now → IsIdsetOf text ids.now) }
    ensures shortest { IfOk result (λ text. IsShortestOf text ids.now) }
{
    let text = text_of(alloc, ids.items())?;
    Ok(Text::of_vec(text))
}
