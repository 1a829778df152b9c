//! The properties that a resource set gives to its ranks.
ghost use Rattle.std.specs.Prelude.{◌≡◌, ℕ, IfOk, option_map};
ghost use Rattle.std.specs.List.{list_any};
ghost use Rattle.json_whole.specs.Values.{view, object_view};
ghost use Rattle.covered_numbers.specs.Covers.{is_covered};
ghost use Rattle.idset_text.specs.Idsets.{is_within};
ghost use Rattle.graph_from_r.specs.Properties.{idset_in, property_of, properties_from, properties_of, properties_in};
ghost use Rattle.graph_from_r.specs.Properties.{names_at};
ghost use Rattle.graph_from_r.specs.Stretches.{stretches_of};

use covered_numbers::{Covered, Stretch};
use flux_defs::{List, MOST_NAME_BYTES, Text};
use idset_text::{Range, TextFault, read_idset};
use json::Value;
use json_fields::given;
use json_whole::{Object, as_object, as_str, get, in_order};
use std::alloc::{AllocError, Global};
use std::marker::Model;
use text_forms::is_name;

/// The ranks of an idset. Whether it has a rank is found in logarithmic time. Contracts see its ranges.
#[derive(Drop)]
pub struct RankSet {
    ranges: List<Range>,
    covered: Covered,
    ghost told: { (id : ℕ) → is_covered covered id ≡ list_any (λ range. is_within range id) ranges },
}

impl Model for RankSet {
    ghost use Rattle.std.specs.Prelude.{List};
    ghost use Rattle.idset_text.specs.declared.idsets.Range.{Range};

    ghost Value = { List Range };

    ghost view = { λ set. set.ranges };
}

/// A property, and the ranks that have it.
#[derive(Drop)]
pub struct Property {
    pub name: Text,
    pub ranks: RankSet,
}

/// The numbers of the ranges.
fn stretches_of(alloc: Global, ranges: &[Range]) -> Result<Vec<Stretch>, AllocError>
    ensures { IfOk result (λ stretches. stretches.items ≡ stretches_of ranges.now) }
{
    let mut stretches = Vec::with_capacity(alloc, ranges.len())?;
    'each: for range in ranges {
        stretches.push(Stretch {
            first: u128::from(range.lo),
            last: u128::from(range.hi),
        })?;
    }
    Ok(stretches)
}

impl RankSet {
    /// The ranks of these ranges.
    fn of(alloc: Global, ranges: List<Range>) -> Result<RankSet, AllocError>
        ensures { IfOk result (λ set. set ≡ ranges) }
    {
        let stretches = stretches_of(alloc, ranges.items())?;
        let covered = Covered::of(alloc, stretches)?;
        Ok(RankSet { ranges, covered })
    }

    /// Whether it has the rank.
    fn has(&self, rank: u32) -> bool
        ensures { result ≡ list_any (λ range. is_within range rank) self.now }
    {
        self.covered.has(u128::from(rank))
    }
}

/// The idset that a value is; none, where it is no text of one.
fn idset_in(alloc: Global, value: &Value) -> Result<Option<RankSet>, AllocError>
    ensures { IfOk result (λ read. read ≡ idset_in (view value.now)) }
{
    let Some(text) = as_str(value) else {
        return Ok(None);
    };
    match read_idset(alloc, text.as_bytes()) {
        Ok(ranges) => Ok(Some(RankSet::of(alloc, ranges)?)),
        Err(TextFault::Form { .. }) => Ok(None),
        Err(TextFault::Memory) => Err(AllocError),
    }
}

/// The property that a key and its value are.
fn property_of(alloc: Global, name: &str, value: &Value) -> Result<Option<Property>, AllocError>
    ensures { IfOk result (λ read. read ≡ property_of name.now (view value.now)) }
{
    if !is_name(name.as_bytes(), MOST_NAME_BYTES) {
        return Ok(None);
    }
    let Some(ranks) = idset_in(alloc, value)? else {
        return Ok(None);
    };
    let name = Text::of(alloc, name.as_bytes())?;
    Ok(Some(Property { name, ranks }))
}

/// The properties of an object's keys.
fn properties_from(alloc: Global, members: &Object) -> Result<Option<List<Property>>, AllocError>
    ensures { IfOk result (λ read. read ≡ properties_from (object_view members.now.items)) }
{
    let sorted = in_order(alloc, members)?;
    let mut properties = Vec::new(alloc);
    'members: for (name, value) in sorted.iter() {
        let Some(property) = property_of(alloc, name, value)? else {
            return Ok(None);
        };
        properties.push(property)?;
    }
    Ok(Some(List::of_vec(properties)))
}

/// The properties that an `execution` gives; none, where they are in no form.
fn properties_of(alloc: Global, execution: &Value) -> Result<Option<List<Property>>, AllocError>
    ensures { IfOk result (λ read. read ≡ properties_of (view execution.now)) }
{
    let Some(found) = given(execution, "properties") else {
        return Ok(Some(List::new(alloc)));
    };
    match as_object(found) {
        Some(members) => properties_from(alloc, members),
        None => Ok(None),
    }
}

/// The properties that the value of a resource set gives; none, where they are in no form.
pub(crate) fn properties_in(
    alloc: Global,
    value: &Value,
) -> Result<Option<List<Property>>, AllocError>
    ensures { IfOk result (λ read. read ≡ properties_in (view value.now)) }
{
    let Some(execution) = get(value, "execution") else {
        return Ok(None);
    };
    properties_of(alloc, execution)
}

/// The names of the properties that have the rank.
pub(crate) fn names_at(
    alloc: Global,
    properties: &[Property],
    rank: u32,
) -> Result<List<Text>, AllocError>
    ensures { IfOk result (λ names. names ≡ names_at properties.now rank) }
{
    let mut names = Vec::new(alloc);
    'properties: for property in properties {
        if property.ranks.has(rank) {
            names.push(property.name.copy(alloc)?)?;
        }
    }
    Ok(List::of_vec(names))
}
