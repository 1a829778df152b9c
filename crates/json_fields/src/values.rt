//! What stands at a key of an object.
ghost use Rattle.std.specs.Prelude.{◌≡◌, option_map};
ghost use Rattle.std.specs.Result.{result_map_both};
ghost use Rattle.json_whole.specs.Values.{view, items_view};
ghost use Rattle.json_fields.specs.Values.{given, object_value, object_or_none, object_field, list_value, list_field};
ghost use Rattle.json_fields.specs.Values.{some_items, some_value, some_field};

use json::Value;
use json_whole::{FieldFault, as_array, as_object, get, is_null};

/// The value at a key that has a default: null counts as absent.
pub fn given<'v, 'a>(value: &'v Value<'a>, key: &str) -> Option<&'v Value<'a>>
    ensures { option_map (λ v. view v.now) result ≡ given key.now (view value.now) }
{
    let found = get(value, key)?;
    if is_null(found) {
        return None;
    }
    Some(found)
}

/// The object at a key that has a default: Kind where another value stands there.
pub fn object_or_none<'v, 'a>(
    value: &'v Value<'a>,
    key: &str,
) -> Result<Option<&'v Value<'a>>, FieldFault>
    ensures { result_map_both (λ found. option_map (λ v. view v.now) found) (λ e. e) result
        ≡ object_or_none (given key.now (view value.now)) }
{
    let Some(found) = given(value, key) else {
        return Ok(None);
    };
    if as_object(found).is_none() {
        return Err(FieldFault::Kind);
    }
    Ok(Some(found))
}

/// The object that a value is: Kind where it is none.
pub fn object_value<'v, 'a>(value: &'v Value<'a>) -> Result<&'v Value<'a>, FieldFault>
    ensures { result_map_both (λ v. view v.now) (λ e. e) result ≡ object_value (view value.now) }
{
    if as_object(value).is_some() {
        Ok(value)
    } else {
        Err(FieldFault::Kind)
    }
}

/// The object at a key: Missing where the key is absent, Kind where another value stands there.
pub fn object_field<'v, 'a>(value: &'v Value<'a>, key: &str) -> Result<&'v Value<'a>, FieldFault>
    ensures { result_map_both (λ v. view v.now) (λ e. e) result ≡ object_field key.now (view value.now) }
{
    match get(value, key) {
        Some(found) => object_value(found),
        None => Err(FieldFault::Missing),
    }
}

/// The list that a value is: Kind where it is none.
pub fn list_value<'v, 'a>(value: &'v Value<'a>) -> Result<&'v Vec<Value<'a>>, FieldFault>
    ensures { result_map_both (λ v. items_view v.now.items) (λ e. e) result ≡ list_value (view value.now) }
{
    as_array(value).ok_or(FieldFault::Kind)
}

/// The list at a key: Missing where the key is absent, Kind where another value stands there.
pub fn list_field<'v, 'a>(value: &'v Value<'a>, key: &str) -> Result<&'v Vec<Value<'a>>, FieldFault>
    ensures { result_map_both (λ v. items_view v.now.items) (λ e. e) result ≡ list_field key.now (view value.now) }
{
    let Some(found) = get(value, key) else {
        return Err(FieldFault::Missing);
    };
    list_value(found)
}

fn some_values<'v, 'a>(values: &'v [Value<'a>]) -> Result<&'v [Value<'a>], FieldFault>
    ensures { result_map_both (λ ds. items_view ds.now) (λ e. e) result ≡ some_items (items_view values.now) }
{
    match values {
        [] => Err(FieldFault::Small),
        [_, ..] => Ok(values),
    }
}

/// The list of one or more values that a value is: Kind where it is no list, Small where it is empty.
pub fn some_value<'v, 'a>(value: &'v Value<'a>) -> Result<&'v [Value<'a>], FieldFault>
    ensures { result_map_both (λ ds. items_view ds.now) (λ e. e) result ≡ some_value (view value.now) }
{
    match list_value(value) {
        Ok(values) => some_values(values.as_slice()),
        Err(fault) => Err(fault),
    }
}

/// The list of one or more values at a key: Missing where the key is absent, Kind and Small as of a value.
pub fn some_field<'v, 'a>(value: &'v Value<'a>, key: &str) -> Result<&'v [Value<'a>], FieldFault>
    ensures { result_map_both (λ ds. items_view ds.now) (λ e. e) result ≡ some_field key.now (view value.now) }
{
    match list_field(value, key) {
        Ok(values) => some_values(values.as_slice()),
        Err(fault) => Err(fault),
    }
}
