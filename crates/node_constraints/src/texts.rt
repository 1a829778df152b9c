//! The texts of a constraint, each of which is read once.
ghost use Rattle.std.specs.Prelude.{◌≡◌, IfOk};
ghost use Rattle.json_whole.specs.Values.{view, items_view};
ghost use Rattle.idset_text.specs.Hostlists.{hostlist_of};
ghost use Rattle.idset_text.specs.Idsets.{idset_of};
ghost use Rattle.node_constraints.specs.Truth.{is_among, has_property, each_text};
ghost use Rattle.node_constraints.specs.Faults.{is_text};
ghost use Rattle.node_constraints.specs.Reading.{read_value, read_all};

use flux_defs::{List, Text};
use idset_text::{Hosts, Range, TextFault, read_hostlist, read_idset};
use json::Value;
use json_whole::as_str;
use std::alloc::{AllocError, Global};

// Properties

/// Whether the text is one of these.
fn is_among(texts: &[Text], wanted: &[u8]) -> bool
    ensures { result ≡ is_among texts.now wanted.now }
{
    texts.iter().any(|text| wanted == text.bytes())
}

/// Whether a node with these properties has one, or behind `^` lacks it.
fn has_property(properties: &[Text], text: &[u8]) -> bool
    ensures { result ≡ has_property properties.now text.now }
{
    match text {
        [b'^', rest @ ..] => !is_among(properties, rest),
        _ => is_among(properties, text),
    }
}

/// Whether each value is a text.
pub(crate) fn are_texts(values: &[Value]) -> bool
    ensures { result ≡ each_text is_text (items_view values.now) }
{
    'values: for value in values {
        if as_str(value).is_none() {
            return false;
        }
    }
    true
}

/// Whether each value is a text that is true for a node with these properties.
pub(crate) fn has_properties(properties: &[Text], values: &[Value]) -> bool
    ensures { result ≡ each_text (has_property properties.now) (items_view values.now) }
{
    'values: for value in values {
        match as_str(value) {
            Some(text) if has_property(properties, text.as_bytes()) => {}
            _ => return false,
        }
    }
    true
}

// Hostlists

/// The hosts that a value names, where it is a hostlist.
fn hostlist_value(alloc: Global, value: &Value) -> Result<Option<List<Hosts>>, AllocError>
    ensures { IfOk result (λ hosts. hosts ≡ read_value hostlist_of (view value.now)) }
{
    let Some(text) = as_str(value) else {
        return Ok(None);
    };
    match read_hostlist(alloc, text.as_bytes()) {
        Ok(hosts) => Ok(Some(hosts)),
        Err(TextFault::Form { .. }) => Ok(None),
        Err(TextFault::Memory) => Err(AllocError),
    }
}

/// The hosts of each value, where each is a hostlist.
pub(crate) fn read_hostlists(
    alloc: Global,
    values: &[Value],
) -> Result<Option<List<List<Hosts>>>, AllocError>
    ensures { IfOk result (λ lists. lists ≡ read_all hostlist_of (items_view values.now)) }
{
    let mut lists = Vec::with_capacity(alloc, values.len())?;
    'values: for value in values {
        match hostlist_value(alloc, value)? {
            Some(hosts) => lists.push(hosts)?,
            None => return Ok(None),
        }
    }
    Ok(Some(List::of_vec(lists)))
}

// Idsets

/// The ranges of a value, where it is an idset.
fn idset_value(alloc: Global, value: &Value) -> Result<Option<List<Range>>, AllocError>
    ensures { IfOk result (λ ranges. ranges ≡ read_value idset_of (view value.now)) }
{
    let Some(text) = as_str(value) else {
        return Ok(None);
    };
    match read_idset(alloc, text.as_bytes()) {
        Ok(ranges) => Ok(Some(ranges)),
        Err(TextFault::Form { .. }) => Ok(None),
        Err(TextFault::Memory) => Err(AllocError),
    }
}

/// The ranges of each value, where each is an idset.
pub(crate) fn read_idsets(
    alloc: Global,
    values: &[Value],
) -> Result<Option<List<List<Range>>>, AllocError>
    ensures { IfOk result (λ sets. sets ≡ read_all idset_of (items_view values.now)) }
{
    let mut sets = Vec::with_capacity(alloc, values.len())?;
    'values: for value in values {
        match idset_value(alloc, value)? {
            Some(ranges) => sets.push(ranges)?,
            None => return Ok(None),
        }
    }
    Ok(Some(List::of_vec(sets)))
}
