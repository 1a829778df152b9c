//! The rules of single fields.
ghost use Rattle.std.specs.Prelude.{◌≡◌, [], IsSome, option_map};
ghost use Rattle.std.specs.List.{list_all};
ghost use Rattle.std.specs.Char.{is_ascii_graphic};
ghost use Rattle.std.specs.Result.{result_map_both};
ghost use Rattle.serde_json.specs.Find.{as_object};
ghost use Rattle.serde_json.specs.View.{number_view};
ghost use Rattle.json_whole.specs.Values.{view};
ghost use Rattle.graph_json.specs.Fields.{is_unit, id_field, small_number, small_given, size_given};
ghost use Rattle.json_fields.specs.Values.{given};
ghost use Rattle.text_forms.specs.Names.{is_name_byte, is_name};
ghost use Rattle.json_fields.specs.Names.{ruled_value, ruled_field, ruled_given};
ghost use Rattle.graph_json.specs.Nodes.{id_bytes};

use flux_defs::{GREATEST_ID, GREATEST_NUMBER, MOST_UNIT_BYTES};
use json::Value;
use json_fields::given;
use json_whole::{FieldFault, as_number, as_str, get, need_u64};
use serde_json::Number;

/// How a file writes the id of a node.
#[derive(Clone, Copy)]
pub(crate) enum NodeId<'a> {
    Written(&'a str),
    Numbered(u64),
}

fn are_visible(bytes: &[u8]) -> bool
    ensures { result ≡ list_all is_ascii_graphic bytes.now }
{
    bytes.iter().all(|byte| byte.is_ascii_graphic())
}

/// Whether the text is a unit.
fn is_unit(text: &str) -> bool
    ensures { result ≡ is_unit text.now }
{
    let bytes = text.as_bytes();
    if bytes.len() > MOST_UNIT_BYTES {
        return false;
    }
    are_visible(bytes)
}

/// The unit at a key; by default the empty text.
pub(crate) fn unit_or_empty<'a>(value: &Value<'a>, key: &str) -> Result<&'a str, FieldFault>
    ensures { result_map_both (λ s. s.now) (λ e. e) result ≡ ruled_given is_unit [] key.now (view value.now) }
{
    let Some(found) = given(value, key) else {
        return Ok("");
    };
    let Some(text) = as_str(found) else {
        return Err(FieldFault::Kind);
    };
    if !is_unit(text) {
        return Err(FieldFault::Text);
    }
    Ok(text)
}

/// The id of a node at a key: a text, or a whole number, which counts as its decimal text.
pub(crate) fn id_field<'a>(value: &Value<'a>, key: &str) -> Result<NodeId<'a>, FieldFault>
    requires { IsSome (as_object (view value.now)) }
    ensures { result_map_both id_bytes (λ e. e) result ≡ id_field key.now (view value.now) }
{
    let Some(found) = get(value, key) else {
        return Err(FieldFault::Missing);
    };
    if let Some(text) = as_str(found) {
        return Ok(NodeId::Written(text));
    }
    let number = need_u64(value, key, 0, GREATEST_NUMBER)?;
    Ok(NodeId::Numbered(number))
}

/// A number that leaves the greatest one of 32 bits free, or none for -1.
fn small_number(number: &Number) -> Result<Option<u32>, FieldFault>
    ensures { result ≡ small_number (number_view number.now) }
{
    if let Some(n) = number.as_u64() {
        if n > GREATEST_ID {
            return Err(FieldFault::Large);
        }
        return Ok(Some(n as u32));
    }
    match number.as_i64() {
        Some(-1) => Ok(None),
        Some(_) => Err(FieldFault::Small),
        None => Err(FieldFault::Kind),
    }
}

/// Such a number at a key whose default is none.
pub(crate) fn small_or_none(value: &Value, key: &str) -> Result<Option<u32>, FieldFault>
    ensures { result ≡ small_given key.now (view value.now) }
{
    let Some(found) = given(value, key) else {
        return Ok(None);
    };
    let Some(number) = as_number(found) else {
        return Err(FieldFault::Kind);
    };
    small_number(&number)
}

/// The size at a key; by default 1.
pub(crate) fn size_or_one(value: &Value, key: &str) -> Result<u64, FieldFault>
    requires { IsSome (as_object (view value.now)) }
    ensures { result ≡ size_given key.now (view value.now) }
{
    if given(value, key).is_none() {
        return Ok(1);
    }
    need_u64(value, key, 0, GREATEST_NUMBER)
}
