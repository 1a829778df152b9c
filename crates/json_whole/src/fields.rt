//! What stands at a key of an object.
ghost use Rattle.std.specs.Prelude.{◌≡◌, IsSome};
ghost use Rattle.std.specs.Result.{result_map_both};
ghost use Rattle.serde_json.specs.Find.{as_object};
ghost use Rattle.json_whole.specs.Values.{view};
ghost use Rattle.json_whole.specs.Field.{text_field, u64_field};

use crate::looking::{as_number, as_str, get};
use json::Value;
use serde_json::Number;

/// What is wrong with a field.
#[derive(Clone, Copy, Debug, PartialEq, Eq)]
pub enum FieldFault {
    /// The key is absent.
    Missing,
    /// Another kind of JSON value stands there, as null or a number that isn't whole.
    Kind,
    /// A whole number below the least one.
    Small,
    /// A whole number above the greatest one.
    Large,
    /// A text that breaks the rule of its key.
    Text,
}

/// The whole number at a key, from `least` to `most`: Missing where the key is absent, Kind at another kind of value,
/// Small below `least` and at each negative number, Large above `most`. It takes no memory.
pub fn need_u64(value: &Value, key: &str, least: u64, most: u64) -> Result<u64, FieldFault>
    requires { IsSome (as_object (view value.now)) }
    ensures { result ≡ u64_field key.now least most (view value.now) }
{
    let Some(field) = get(value, key) else {
        return Err(FieldFault::Missing);
    };
    let Some(number) = as_number(field) else {
        return Err(FieldFault::Kind);
    };
    match number.as_u64() {
        Some(n) if n < least => Err(FieldFault::Small),
        Some(n) if most < n => Err(FieldFault::Large),
        Some(n) => Ok(n),
        None if number.is_f64() => Err(FieldFault::Kind),
        None => Err(FieldFault::Small),
    }
}

/// The text at a key: Missing where the key is absent, Kind at another kind of value. It takes no memory.
pub fn need_text<'a>(value: &Value<'a>, key: &str) -> Result<&'a str, FieldFault>
    requires { IsSome (as_object (view value.now)) }
    ensures { result_map_both (λ s. s.now) (λ e. e) result ≡ text_field key.now (view value.now) }
{
    let Some(field) = get(value, key) else {
        return Err(FieldFault::Missing);
    };
    as_str(field).ok_or(FieldFault::Kind)
}
