//! What stands in a value. The value at a repeated key is the last one.
ghost use Rattle.std.specs.Prelude.{◌≡◌, ◌<◌, ◌==◌, length, slice_index, true, false, IsTrue, IfOk, OnOk, is_some};
ghost use Rattle.std.specs.Prelude.{option_map};
ghost use Rattle.fast_float.specs.Text.{minus};
ghost use Rattle.json.specs.Find.{get_member};
ghost use Rattle.json.specs.Value.{value_view, members_view};
ghost use Rattle.serde_json.specs.Data.{put};
ghost use Rattle.serde_json.specs.Find.{get, as_null, as_bool, as_number, as_str, as_array, as_object};
ghost use Rattle.serde_json.specs.Read.{number_from, number_of};
ghost use Rattle.serde_json.specs.View.{number_view};
ghost use Rattle.json_whole.specs.Values.{whole_or_zero, view, items_view, object_view, entries_view};

use fast_float::Numeral;
use json::Value;
use serde_json::Number;
use std::alloc::{AllocError, Global};
use std::collections::BTreeMap;

/// The members of an object as they came: keys may repeat.
pub type Object<'a> = Vec<(&'a str, Value<'a>)>;

/// The value of the last member with a key. Where the lengths differ no byte is looked at.
fn last_at<'v, 'a>(members: &'v Object<'a>, key: &str) -> Option<&'v Value<'a>>
    ensures { option_map (λ v. value_view v.now) result ≡ get_member key.now (members_view members.now.items) }
{
    let mut left = members.len();
    'members: while left > 0 {
        left -= 1;
        let member = &members[left];
        if member.0.len() == key.len() && member.0 == key {
            return Some(&member.1);
        }
    }
    None
}

/// The value at a key; none where the value is no object or has no such key. Linear in the members.
pub fn get<'v, 'a>(value: &'v Value<'a>, key: &str) -> Option<&'v Value<'a>>
    ensures { option_map (λ v. view v.now) result ≡ get key.now (view value.now) }
{
    match value {
        Value::Object(members) => last_at(members, key),
        _ => None,
    }
}

/// Whether it is null.
pub fn is_null(value: &Value) -> bool
    ensures { result ≡ is_some (as_null (view value.now)) }
{
    value.is_null()
}

/// The truth value that it is.
pub fn as_bool(value: &Value) -> Option<bool>
    ensures { result ≡ as_bool (view value.now) }
{
    value.as_bool()
}

/// The text that it is.
pub fn as_str<'a>(value: &Value<'a>) -> Option<&'a str>
    ensures { option_map (λ s. s.now) result ≡ as_str (view value.now) }
{
    value.as_str()
}

/// The number that digits write, and 0 where 64 bits don't hold it.
#[tactic(auto, using(crate::proofs::Looks::no_float_left))]
fn unsigned_number(numeral: &Numeral<'_>) -> Number
    ensures { number_view result ≡ whole_or_zero (number_from false numeral.now) }
{
    match numeral.to_u64() {
        Some(n) => Number::from(n),
        None => Number::from(0_u64),
    }
}

/// The number that digits behind a minus sign write, and 0 where 64 bits don't hold it.
#[tactic(auto, using(crate::proofs::Looks::no_float_left))]
fn negative_number(numeral: &Numeral<'_>) -> Number
    ensures { number_view result ≡ whole_or_zero (number_from true numeral.now) }
{
    match numeral.to_i64(true) {
        Some(n) if n < 0 => Number::from(n),
        _ => Number::from(0_u64),
    }
}

/// Whether a minus sign stands first.
fn has_minus(bytes: &[u8]) -> bool
    ensures minus { result ≡ (slice_index bytes.now 0 == minus) }
    ensures some { IsTrue result → 0 < length bytes.now }
{
    bytes.first() == Some(&b'-')
}

/// The whole number of 64 bits that a text is, and 0 where it is none.
fn number_in(text: &str) -> Number
    ensures { number_view result ≡ whole_or_zero (number_of text.now) }
{
    let bytes = text.as_bytes();
    if has_minus(bytes) {
        negative_number(&Numeral::scan(&bytes[1..]))
    } else {
        unsigned_number(&Numeral::scan(bytes))
    }
}

/// The number that it is, which is no float.
pub fn as_number(value: &Value) -> Option<Number>
    ensures { option_map number_view result ≡ as_number (view value.now) }
{
    let text = value.as_number()?;
    Some(number_in(text))
}

/// The list that it is.
pub fn as_array<'v, 'a>(value: &'v Value<'a>) -> Option<&'v Vec<Value<'a>>>
    ensures { option_map (λ v. items_view v.now.items) result ≡ as_array (view value.now) }
{
    match value {
        Value::Array(items) => Some(items),
        _ => None,
    }
}

/// The members of the object that it is.
pub fn as_object<'v, 'a>(value: &'v Value<'a>) -> Option<&'v Object<'a>>
    ensures { option_map (λ m. object_view m.now.items) result ≡ as_object (view value.now) }
{
    match value {
        Value::Object(members) => Some(members),
        _ => None,
    }
}

/// Adds a key with its value, in the place of the value that the key had.
fn put_entry<'v, 'a>(
    map: &mut BTreeMap<&'a str, &'v Value<'a>>,
    key: &'a str,
    value: &'v Value<'a>,
) -> Result<(), AllocError>
    ensures { OnOk result (entries_view map.new.entries ≡ put key.now (view value.now) (entries_view map.old.entries)) }
{
    map.insert(key, value)?;
    Ok(())
}

/// The members of an object in the order of their keys, each key once, with its last value.
pub fn in_order<'v, 'a>(
    alloc: Global,
    members: &'v Object<'a>,
) -> Result<BTreeMap<&'a str, &'v Value<'a>>, AllocError>
    ensures { IfOk result (λ map. entries_view map.entries ≡ object_view members.now.items) }
{
    let mut map = BTreeMap::new(alloc);
    'members: for member in members {
        put_entry(&mut map, member.0, &member.1)?;
    }
    Ok(map)
}
