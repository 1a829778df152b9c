//! Names.
ghost use Rattle.std.specs.Prelude.{◌≡◌, IsSome};
ghost use Rattle.std.specs.Result.{result_map_both};
ghost use Rattle.serde_json.specs.Find.{as_object};
ghost use Rattle.json_whole.specs.Values.{view};
ghost use Rattle.text_forms.specs.Names.{is_name};
ghost use Rattle.json_fields.specs.Names.{ruled, ruled_value, ruled_field, ruled_given};

use crate::values::given;
use json::Value;
use json_whole::{FieldFault, as_str, need_text};

/// The text, where it is a name of at most so many bytes; else Text.
fn name_text(text: &str, most: usize) -> Result<&str, FieldFault>
    ensures { result_map_both (λ s. s.now) (λ e. e) result ≡ ruled (is_name most) text.now }
{
    if !text_forms::is_name(text.as_bytes(), most) {
        return Err(FieldFault::Text);
    }
    Ok(text)
}

/// The name of at most so many bytes that a value is: Kind where it is no text, Text where the text is no such name.
pub fn name_value<'a>(value: &Value<'a>, most: usize) -> Result<&'a str, FieldFault>
    ensures { result_map_both (λ s. s.now) (λ e. e) result ≡ ruled_value (is_name most) (view value.now) }
{
    match as_str(value) {
        Some(text) => name_text(text, most),
        None => Err(FieldFault::Kind),
    }
}

/// The name of at most so many bytes at a key: Missing where the key is absent, Kind and Text as of a value.
pub fn name_field<'a>(value: &Value<'a>, key: &str, most: usize) -> Result<&'a str, FieldFault>
    requires { IsSome (as_object (view value.now)) }
    ensures { result_map_both (λ s. s.now) (λ e. e) result ≡ ruled_field (is_name most) key.now (view value.now) }
{
    match need_text(value, key) {
        Ok(text) => name_text(text, most),
        Err(fault) => Err(fault),
    }
}

/// The name of at most so many bytes at a key that has a default; Kind and Text as of a value.
pub fn name_or<'a>(
    value: &Value<'a>,
    key: &str,
    most: usize,
    otherwise: &'a str,
) -> Result<&'a str, FieldFault>
    ensures { result_map_both (λ s. s.now) (λ e. e) result
        ≡ ruled_given (is_name most) otherwise.now key.now (view value.now) }
{
    match given(value, key) {
        Some(found) => name_value(found, most),
        None => Ok(otherwise),
    }
}
