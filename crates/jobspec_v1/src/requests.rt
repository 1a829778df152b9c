//! Request vertices as a jobspec lists them.
ghost use Rattle.std.specs.Prelude.{◌≡◌, ◌⊎◌, ◌||◌, ◌∷◌, [], ℕ, List, Ok, IfOk, IfErr, OnOk, option_map};
ghost use Rattle.json_whole.specs.Values.{view, items_view};
ghost use Rattle.need_shape.specs.Requests.{is_slot, AreRequests};
ghost use Rattle.jobspec_v1.specs.declared.headers.VertexKey.TheVariants as key;
ghost use Rattle.jobspec_v1.specs.Faults.{IsFirstBehind, told_behind, vertex_path};
ghost use Rattle.jobspec_v1.specs.Requests.{requests_of, request_of, labels_with};

use crate::faults::{SpecFault, behind};
use crate::headers::{VertexKey, header_of, is_slot, key_path, misfit_at};
use flux_defs::{List, Text};
use json::Value;
use json_fields::member_path;
use need_shape::RawNeed;
use std::alloc::{AllocError, Global};
use text_forms::push;
use text_table::TextTable;

/// Request vertices, and the labels of their slots.
#[derive(Drop)]
pub struct Requested {
    pub needs: List<RawNeed>,
    pub labels: TextTable,
}

/// Adds the label, where there is one.
fn add_label(alloc: Global, labels: &mut TextTable, label: Option<&str>) -> Result<(), AllocError>
    ensures { OnOk result (labels.new ≡ labels_with labels.old (option_map (λ s. s.now) label.entry)) }
{
    if let Some(text) = label {
        labels.add(alloc, text.as_bytes())?;
    }
    Ok(())
}

/// Whether what is in a request vertex of this type is in a slot.
fn is_inside(kind: &str, in_slot: bool) -> bool
    ensures { result ≡ (is_slot kind.now || in_slot) }
{
    is_slot(kind) || in_slot
}

/// A fault of the list in the member with this index, told from the list of that member on.
fn in_member(alloc: Global, at: u64, fault: SpecFault) -> SpecFault
    ensures { (result ≡ SpecFault.Memory) ⊎ (result ≡ told_behind (vertex_path [] at key.With) fault) }
{
    match member_path(alloc, b"", at, key_path(VertexKey::With)) {
        Ok(front) => behind(alloc, front.bytes(), fault),
        Err(_) => SpecFault::Memory,
    }
}

/// The request vertex that the value at an index of a list is, with those in it; `labels` gains those of its slots. A
/// fault is told from the list on, so that no path is made where nothing is wrong.
#[cycle(requests)]
fn read_request(
    alloc: Global,
    value: &Value,
    in_slot: bool,
    at: u64,
    labels: &mut TextTable,
) -> Result<RawNeed, SpecFault>
    ensures read { IfOk result (λ need. (list : List ℕ) → request_of (view value.now) in_slot list at labels.old
        ≡ Ok (record { needs = need ∷ []; labels = labels.new })) }
    ensures fine { IfOk result (λ need. AreRequests in_slot (need ∷ [])) }
    ensures told { IfErr result (IsFirstBehind (λ list.
        request_of (view value.now) in_slot list at labels.old)) }
{
    let header = match header_of(in_slot, labels, value) {
        Ok(header) => header,
        Err(misfit) => return Err(misfit_at(alloc, b"", at, misfit)),
    };
    add_label(alloc, labels, header.label)?;
    let kind = Text::of(alloc, header.kind.as_bytes())?;
    let inside = is_inside(header.kind, in_slot);
    match read_requests(alloc, header.with, inside, labels) {
        Ok(with) => Ok(RawNeed {
            kind,
            count: header.count,
            exclusive: header.exclusive,
            with,
        }),
        Err(fault) => Err(in_member(alloc, at, fault)),
    }
}

/// The request vertices that the values of a list are, in a slot or not, with those in each; `labels` gains those of
/// their slots. The fault is the first one, vertex by vertex, each before those in it, and in each key by key; its path
/// is told from the list on.
#[cycle(requests)]
pub(crate) fn read_requests(
    alloc: Global,
    values: &[Value],
    in_slot: bool,
    labels: &mut TextTable,
) -> Result<List<RawNeed>, SpecFault>
    ensures read { IfOk result (λ needs. (list : List ℕ) → requests_of (items_view values.now) in_slot list 0 labels.old
        ≡ Ok (record { needs = needs; labels = labels.new })) }
    ensures fine { IfOk result (λ needs. AreRequests in_slot needs) }
    ensures told { IfErr result (IsFirstBehind (λ list.
        requests_of (items_view values.now) in_slot list 0 labels.old)) }
{
    let mut needs = Vec::with_capacity(alloc, values.len())?;
    'values: for (at, value) in values.iter().enumerate() {
        match read_request(alloc, value, in_slot, at as u64, labels) {
            Ok(need) => push(&mut needs, need)?,
            Err(fault) => return Err(fault),
        }
    }
    Ok(List::of_vec(needs))
}
