//! The fields of a resource set's value, and their places.
ghost use Rattle.std.specs.Prelude.{◌≡◌, ◌++◌, IfOk, IsSome, codes};
ghost use Rattle.std.specs.Result.{result_map_both};
ghost use Rattle.serde_json.specs.Find.{as_object, get, as_str};
ghost use Rattle.json_whole.specs.Values.{view, items_view};
ghost use Rattle.json_whole.specs.Field.{text_or_kind, text_field};
ghost use Rattle.json_fields.specs.Values.{object_value, object_field, list_field, list_value};
ghost use Rattle.resource_set_r.specs.Misreads.{field_path, at_field};
ghost use Rattle.resource_set_r.specs.ReadRows.{version_of, execution_of};
ghost use Rattle.resource_set_r.specs.ReadR.{second_or_zero};

use crate::faults::{FieldPath, Misread};
use flux_defs::{GREATEST_NUMBER, Text};
use json::Value;
use json_fields::{Misfit, list_field, list_value, member_path, object_field, object_value};
use json_whole::{FieldFault, as_str, get, need_text, need_u64};
use std::alloc::{AllocError, Global};

/// Where the elements of the resource set stand.
const R_LITE: &[u8] = b"execution.R_lite";
/// Where the hosts stand.
const NODELIST: &[u8] = b"execution.nodelist";

/// The path of a field, from the whole text on.
pub(crate) fn field_path(alloc: Global, field: FieldPath) -> Result<Text, AllocError>
    ensures { IfOk result (λ path. path ≡ field_path field) }
{
    match field {
        FieldPath::Whole => Text::of(alloc, b"."),
        FieldPath::Version => Text::of(alloc, b"version"),
        FieldPath::Execution => Text::of(alloc, b"execution"),
        FieldPath::RLite => Text::of(alloc, R_LITE),
        FieldPath::Row { at } => member_path(alloc, R_LITE, at, ""),
        FieldPath::Rank { at } => member_path(alloc, R_LITE, at, ".rank"),
        FieldPath::Children { at } => member_path(alloc, R_LITE, at, ".children"),
        FieldPath::Core { at } => member_path(alloc, R_LITE, at, ".children.core"),
        FieldPath::Gpu { at } => member_path(alloc, R_LITE, at, ".children.gpu"),
        FieldPath::Nodelist => Text::of(alloc, NODELIST),
        FieldPath::Host { at } => member_path(alloc, NODELIST, at, ""),
        FieldPath::Starttime => Text::of(alloc, b"execution.starttime"),
        FieldPath::Expiration => Text::of(alloc, b"execution.expiration"),
    }
}

/// What a field gives, or its fault there.
pub(crate) fn at_field<T>(field: FieldPath, read: Result<T, FieldFault>) -> Result<T, Misread>
    ensures { result ≡ at_field field read }
{
    match json_fields::at_field(field, read) {
        Ok(found) => Ok(found),
        Err(misfit) => Err(Misread::Field(misfit)),
    }
}

/// A value that is an object.
pub(crate) fn object_of<'v, 'a>(
    value: &'v Value<'a>,
    field: FieldPath,
) -> Result<&'v Value<'a>, Misread>
    ensures { result_map_both (λ v. view v.now) (λ e. e) result ≡ at_field field (object_value (view value.now)) }
{
    at_field(field, object_value(value))
}

/// The object at a key.
pub(crate) fn object_at<'v, 'a>(
    value: &'v Value<'a>,
    key: &str,
    field: FieldPath,
) -> Result<&'v Value<'a>, Misread>
    ensures { result_map_both (λ v. view v.now) (λ e. e) result ≡ at_field field
        (object_field key.now (view value.now)) }
{
    at_field(field, object_field(value, key))
}

/// The list at a key.
pub(crate) fn list_at<'v, 'a>(
    value: &'v Value<'a>,
    key: &str,
    field: FieldPath,
) -> Result<&'v Vec<Value<'a>>, Misread>
    ensures { result_map_both (λ v. items_view v.now.items) (λ e. e) result ≡ at_field field
        (list_field key.now (view value.now)) }
{
    at_field(field, list_field(value, key))
}

/// A value that is a list.
pub(crate) fn list_of<'v, 'a>(
    value: &'v Value<'a>,
    field: FieldPath,
) -> Result<&'v Vec<Value<'a>>, Misread>
    ensures { result_map_both (λ v. items_view v.now.items) (λ e. e) result ≡ at_field field
        (list_value (view value.now)) }
{
    at_field(field, list_value(value))
}

/// A value that is a text.
pub(crate) fn text_value<'a>(value: &Value<'a>, field: FieldPath) -> Result<&'a str, Misread>
    ensures { result_map_both (λ s. s.now) (λ e. e) result ≡ at_field field (text_or_kind (as_str (view value.now))) }
{
    match as_str(value) {
        Some(text) => Ok(text),
        None => Err(Misread::Field(Misfit {
            field,
            fault: FieldFault::Kind,
        })),
    }
}

/// The text at a key.
pub(crate) fn text_at<'a>(
    value: &Value<'a>,
    key: &str,
    field: FieldPath,
) -> Result<&'a str, Misread>
    requires { IsSome (as_object (view value.now)) }
    ensures { result_map_both (λ s. s.now) (λ e. e) result ≡ at_field field (text_field key.now (view value.now)) }
{
    at_field(field, need_text(value, key))
}

/// The version, which is 1.
fn version_of(value: &Value) -> Result<u64, Misread>
    requires { IsSome (as_object (view value.now)) }
    ensures { result ≡ version_of (view value.now) }
{
    let version = at_field(FieldPath::Version, need_u64(value, "version", 0, u64::MAX))?;
    if version != 1 {
        return Err(Misread::Version);
    }
    Ok(version)
}

/// What stands at `execution`.
pub(crate) fn execution_of<'v, 'a>(value: &'v Value<'a>) -> Result<&'v Value<'a>, Misread>
    ensures { result_map_both (λ v. view v.now) (λ e. e) result ≡ execution_of (view value.now) }
{
    let whole = object_of(value, FieldPath::Whole)?;
    version_of(whole)?;
    object_at(whole, "execution", FieldPath::Execution)
}

/// The second at a key, by default 0.
pub(crate) fn second_or_zero(value: &Value, key: &str, field: FieldPath) -> Result<u64, Misread>
    requires { IsSome (as_object (view value.now)) }
    ensures { result ≡ second_or_zero field (get key.now (view value.now)) }
{
    if get(value, key).is_none() {
        return Ok(0);
    }
    at_field(field, need_u64(value, key, 0, GREATEST_NUMBER))
}
