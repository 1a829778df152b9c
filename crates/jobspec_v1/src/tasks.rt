//! The tasks of a jobspec.
ghost use Rattle.std.specs.Prelude.{◌≡◌, ◌⊎◌, ◌∷◌, ℕ, List, Some, None, Ok, Err, IsSome, IfOk, IfErr, IsOk};
ghost use Rattle.std.specs.Option.{option_map_or};
ghost use Rattle.serde_json.specs.Find.{as_object};
ghost use Rattle.json_whole.specs.Values.{view, items_view};
ghost use Rattle.jobspec_v1.specs.Faults.{IsFirstFault};
ghost use Rattle.jobspec_v1.specs.Tasks.{are_texts, is_command, is_label, is_count_or_absent, is_task_count, is_task};
ghost use Rattle.jobspec_v1.specs.Tasks.{tasks_fault, task_fault, task_list};

use crate::faults::{SpecFault, field_at};
use crate::headers::is_among;
use flux_defs::GREATEST_NUMBER;
use json::Value;
use json_fields::{member_path, some_field};
use json_whole::{FieldFault, as_array, as_object, as_str, get, need_u64};
use std::alloc::Global;
use text_table::TextTable;

fn are_texts(values: &[Value]) -> bool
    ensures { result ≡ are_texts (items_view values.now) }
{
    for value in values {
        if as_str(value).is_none() {
            return false;
        }
    }
    true
}

/// Whether a value is a list of one or more texts.
fn is_command(value: &Value) -> bool
    ensures { result ≡ is_command (view value.now) }
{
    match as_array(value) {
        Some(words) => !words.is_empty() && are_texts(words.as_slice()),
        None => false,
    }
}

/// Whether a value is one of the labels.
fn is_label(labels: &TextTable, value: &Value) -> bool
    ensures { result ≡ is_label labels.now (view value.now) }
{
    match as_str(value) {
        Some(text) => is_among(labels, text),
        None => false,
    }
}

/// Whether there is no such key, or a count at it.
fn is_count_or_absent(value: &Value, key: &str) -> bool
    requires { IsSome (as_object (view value.now)) }
    ensures { result ≡ is_count_or_absent key.now (view value.now) }
{
    get(value, key).is_none() || need_u64(value, key, 1, GREATEST_NUMBER).is_ok()
}

/// Whether a value is an object with a count for each slot or for all of them.
fn is_task_count(value: &Value) -> bool
    ensures { result ≡ is_task_count (view value.now) }
{
    as_object(value).is_some()
        && (get(value, "per_slot").is_some() || get(value, "total").is_some())
        && is_count_or_absent(value, "per_slot")
        && is_count_or_absent(value, "total")
}

/// Whether an object is a task of a request whose slots have these labels.
fn is_task(labels: &TextTable, value: &Value) -> bool
    ensures { result ≡ is_task labels.now (view value.now) }
{
    let Some(command) = get(value, "command") else {
        return false;
    };
    let Some(slot) = get(value, "slot") else {
        return false;
    };
    let Some(count) = get(value, "count") else {
        return false;
    };
    is_command(command) && is_label(labels, slot) && is_task_count(count)
}

/// Refuses a value that is no task.
fn check_task(alloc: Global, labels: &TextTable, at: u64, value: &Value) -> Result<(), SpecFault>
    ensures fine { IsOk result → task_fault labels.now at (view value.now) ≡ None }
    ensures told { IfErr result
        (λ fault. (fault ≡ SpecFault.Memory) ⊎ (task_fault labels.now at (view value.now) ≡ Some fault)) }
{
    if as_object(value).is_some() && is_task(labels, value) {
        return Ok(());
    }
    let path = member_path(alloc, b"tasks", at, "")?;
    if as_object(value).is_some() {
        return Err(SpecFault::Task { path });
    }
    Err(SpecFault::Field {
        path,
        fault: FieldFault::Kind,
    })
}

/// Refuses the first value that is no task of a request whose slots have these labels: Task where it is an object, and
/// else Field, at its path.
pub(crate) fn check_tasks(
    alloc: Global,
    labels: &TextTable,
    values: &[Value],
) -> Result<(), SpecFault>
    ensures fine { IsOk result → tasks_fault labels.now 0 (items_view values.now) ≡ None }
    ensures told { IfErr result
        (λ fault. (fault ≡ SpecFault.Memory) ⊎ (tasks_fault labels.now 0 (items_view values.now) ≡ Some fault)) }
{
    'values: for (at, value) in values.iter().enumerate() {
        check_task(alloc, labels, at as u64, value)?;
    }
    Ok(())
}

/// The values at `tasks`, one or more: Field at `tasks` where it is no such list.
pub(crate) fn task_list<'v, 'a>(
    alloc: Global,
    value: &'v Value<'a>,
) -> Result<&'v [Value<'a>], SpecFault>
    ensures read { IfOk result (λ values. task_list (view value.now) ≡ Ok (items_view values.now)) }
    ensures told { IfErr result (IsFirstFault (task_list (view value.now))) }
{
    match some_field(value, "tasks") {
        Ok(values) => Ok(values),
        Err(fault) => Err(field_at(alloc, b"tasks", fault)),
    }
}
