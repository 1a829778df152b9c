//! What a request vertex says of itself, key by key.
ghost use Rattle.std.specs.Prelude.{◌≡◌, ◌⊎◌, ◌++◌, [], IsSome, codes, option_map, map, false, true};
ghost use Rattle.std.specs.List.{list_all, list_any};
ghost use Rattle.std.specs.Result.{result_map_both};
ghost use Rattle.serde_json.specs.Find.{as_object};
ghost use Rattle.json_whole.specs.Values.{view, items_view, object_view};
ghost use Rattle.need_shape.specs.Requests.{is_slot};
ghost use Rattle.jobspec_v1.specs.Faults.{key_path, vertex_path, fault_at};
ghost use Rattle.json_fields.specs.Misfits.{at_field};
ghost use Rattle.jobspec_v1.specs.Requests.{is_vertex_key, has_own_keys, keys_given, type_given, count_given};
ghost use Rattle.jobspec_v1.specs.Requests.{unit_given, exclusive_given, is_among, label_given, with_given, said_by};
ghost use Rattle.jobspec_v1.specs.Requests.{said_held, of_field};

use crate::faults::SpecFault;
use flux_defs::{GREATEST_NUMBER, MOST_TYPE_BYTES};
use json::Value;
use json_fields::{Misfit, at_field, list_value, member_path, name_field, some_value};
use json_whole::{FieldFault, Object, as_bool, as_object, as_str, get, need_text, need_u64};
use std::alloc::Global;
use text_table::TextTable;

/// A key of a request vertex, or the whole of it, or a key that is none of its own.
#[derive(Clone, Copy, Debug, PartialEq, Eq)]
pub enum VertexKey {
    Whole,
    Foreign,
    TypeName,
    Count,
    Unit,
    Exclusive,
    Label,
    With,
}

/// What is wrong with a key.
#[derive(Clone, Copy, Debug, PartialEq, Eq)]
pub enum KeyFault {
    Field(FieldFault),
    Label,
    NotInProfile,
}

/// A key that breaks its rule.
pub type KeyMisfit = Misfit<VertexKey, KeyFault>;

/// What a request vertex says of itself: its label where it is a slot, and the values of the list in it.
#[derive(Clone, Copy)]
pub struct Header<'v, 'a> {
    pub kind: &'a str,
    pub count: u64,
    pub exclusive: Option<bool>,
    pub label: Option<&'a str>,
    pub with: &'v [Value<'a>],
}

/// Where a key stands, behind its request vertex.
pub(crate) fn key_path(key: VertexKey) -> &'static str
    ensures { result.now ≡ key_path key }
{
    match key {
        VertexKey::Whole => "",
        VertexKey::Foreign => ".*",
        VertexKey::TypeName => ".type",
        VertexKey::Count => ".count",
        VertexKey::Unit => ".unit",
        VertexKey::Exclusive => ".exclusive",
        VertexKey::Label => ".label",
        VertexKey::With => ".with",
    }
}

/// The fault of a key of a member of the list at a path.
pub(crate) fn misfit_at(alloc: Global, list: &[u8], at: u64, misfit: KeyMisfit) -> SpecFault
    ensures { (result ≡ SpecFault.Memory) ⊎ (result ≡ fault_at (vertex_path list.now at misfit.field) misfit.fault) }
{
    let Ok(path) = member_path(alloc, list, at, key_path(misfit.field)) else {
        return SpecFault::Memory;
    };
    match misfit.fault {
        KeyFault::Field(fault) => SpecFault::Field { path, fault },
        KeyFault::Label => SpecFault::Label { path },
        KeyFault::NotInProfile => SpecFault::NotInProfile { path },
    }
}

fn of_field<T>(field: Result<T, FieldFault>) -> Result<T, KeyFault>
    ensures { result ≡ of_field field }
{
    match field {
        Ok(found) => Ok(found),
        Err(fault) => Err(KeyFault::Field(fault)),
    }
}

fn is_vertex_key(key: &str) -> bool
    ensures { result ≡ is_vertex_key key.now }
{
    key == "type"
        || key == "count"
        || key == "unit"
        || key == "exclusive"
        || key == "label"
        || key == "with"
}

fn has_own_keys(members: &Object) -> bool
    ensures { result ≡ has_own_keys (object_view members.now.items) }
{
    members.iter().all(|member| is_vertex_key(member.0))
}

/// Whether it is an object with no other keys.
fn keys_given(value: &Value) -> Result<bool, KeyMisfit>
    ensures { result ≡ keys_given (view value.now) }
{
    let Some(members) = as_object(value) else {
        return Err(Misfit {
            field: VertexKey::Whole,
            fault: KeyFault::Field(FieldFault::Kind),
        });
    };
    if !has_own_keys(members) {
        return Err(Misfit {
            field: VertexKey::Foreign,
            fault: KeyFault::NotInProfile,
        });
    }
    Ok(true)
}

/// Whether a request vertex whose type is called so is a slot.
pub(crate) fn is_slot(kind: &str) -> bool
    ensures { result ≡ is_slot kind.now }
{
    kind == "slot"
}

fn type_key<'a>(in_slot: bool, value: &Value<'a>) -> Result<&'a str, KeyFault>
    requires { IsSome (as_object (view value.now)) }
    ensures { at_field VertexKey.TypeName (result_map_both (λ s. s.now) (λ e. e) result) ≡ type_given in_slot
        (view value.now) }
{
    let kind = of_field(name_field(value, "type", MOST_TYPE_BYTES))?;
    if is_slot(kind) && in_slot {
        return Err(KeyFault::NotInProfile);
    }
    Ok(kind)
}

fn count_key(value: &Value) -> Result<u64, KeyFault>
    requires { IsSome (as_object (view value.now)) }
    ensures { at_field VertexKey.Count result ≡ count_given (view value.now) }
{
    if let Some(found) = get(value, "count") {
        if as_object(found).is_some() || as_str(found).is_some() {
            return Err(KeyFault::NotInProfile);
        }
    }
    of_field(need_u64(value, "count", 1, GREATEST_NUMBER))
}

fn unit_key(value: &Value) -> Result<bool, KeyFault>
    ensures { at_field VertexKey.Unit result ≡ unit_given (view value.now) }
{
    match get(value, "unit") {
        Some(found) if as_str(found).is_none() => Err(KeyFault::Field(FieldFault::Kind)),
        _ => Ok(true),
    }
}

fn exclusive_key(slot: bool, value: &Value) -> Result<Option<bool>, KeyFault>
    ensures { at_field VertexKey.Exclusive result ≡ exclusive_given slot (view value.now) }
{
    let Some(found) = get(value, "exclusive") else {
        return Ok(None);
    };
    match as_bool(found) {
        None => Err(KeyFault::Field(FieldFault::Kind)),
        Some(held) if slot && !held => Err(KeyFault::NotInProfile),
        Some(held) => Ok(Some(held)),
    }
}

/// Whether a text is in the table.
pub(crate) fn is_among(texts: &TextTable, text: &str) -> bool
    ensures { result ≡ is_among texts.now text.now }
{
    texts.number_of(text.as_bytes()).is_some()
}

fn label_key<'a>(
    labels: &TextTable,
    slot: bool,
    value: &Value<'a>,
) -> Result<Option<&'a str>, KeyFault>
    requires { IsSome (as_object (view value.now)) }
    ensures { at_field VertexKey.Label
        (result_map_both (λ found. option_map (λ s. s.now) found) (λ e. e) result) ≡ label_given labels.now slot
        (view value.now) }
{
    if !slot {
        return Ok(None);
    }
    let label = of_field(need_text(value, "label"))?;
    if label.is_empty() || is_among(labels, label) {
        return Err(KeyFault::Label);
    }
    Ok(Some(label))
}

fn with_key<'v, 'a>(slot: bool, value: &'v Value<'a>) -> Result<&'v [Value<'a>], KeyFault>
    ensures { at_field VertexKey.With (result_map_both (λ ds. items_view ds.now) (λ e. e) result) ≡ with_given slot
        (view value.now) }
{
    let Some(found) = get(value, "with") else {
        if slot {
            return Err(KeyFault::Field(FieldFault::Missing));
        }
        return Ok(Default::default());
    };
    if slot {
        return of_field(some_value(found));
    }
    let with = of_field(list_value(found))?;
    Ok(with.as_slice())
}

/// What a request vertex says of itself, in a slot or not and behind slots with these labels; or the first of its keys'
/// faults.
pub fn header_of<'v, 'a>(
    in_slot: bool,
    labels: &TextTable,
    value: &'v Value<'a>,
) -> Result<Header<'v, 'a>, KeyMisfit>
    ensures { result_map_both said_held (λ m. m) result ≡ said_by in_slot labels.now (view value.now) }
{
    keys_given(value)?;
    let kind = at_field(VertexKey::TypeName, type_key(in_slot, value))?;
    let count = at_field(VertexKey::Count, count_key(value))?;
    at_field(VertexKey::Unit, unit_key(value))?;
    let slot = is_slot(kind);
    let exclusive = at_field(VertexKey::Exclusive, exclusive_key(slot, value))?;
    let label = at_field(VertexKey::Label, label_key(labels, slot, value))?;
    let with = at_field(VertexKey::With, with_key(slot, value))?;
    Ok(Header {
        kind,
        count,
        exclusive,
        label,
        with,
    })
}
