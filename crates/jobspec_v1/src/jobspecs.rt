//! A jobspec of version 1 from its bytes.
ghost use Rattle.std.specs.Prelude.{◌≡◌, ◌⊎◌, Ok, Err, Some, None, [], true, false, IsSome, IsOk, IfOk, IfErr};
ghost use Rattle.std.specs.Prelude.{option_map};
ghost use Rattle.std.specs.List.{AllByRecursion};
ghost use Rattle.serde_json.specs.Find.{as_object};
ghost use Rattle.json_whole.specs.Values.{view, items_view};
ghost use Rattle.json_whole.specs.Whole.{value_of};
ghost use Rattle.flux_defs.specs.Graph.{IsNode};
ghost use Rattle.flux_defs.specs.Needs.{IsProperAsk, AreRisingFrom};
ghost use Rattle.need_shape.specs.Requests.{AreRequests};
ghost use Rattle.jobspec_v1.specs.Faults.{IsFirstFault};
ghost use Rattle.jobspec_v1.specs.Forms.{is_v1};
ghost use Rattle.jobspec_v1.specs.Parts.{IsReadAs};
ghost use Rattle.jobspec_v1.specs.Jobspecs.{version_of, resources_of, bars_in, is_one, ask_for, ask_by, v1_tasks};
ghost use Rattle.jobspec_v1.specs.Jobspecs.{tasks_in, v1_in, v1_of};

use crate::attributes::read_attributes;
use crate::faults::{SpecFault, behind, field_at};
use crate::forms::is_v1;
use crate::requests::{Requested, read_requests};
use crate::tasks::{check_tasks, task_list};
use flux_defs::{Ask, GREATEST_NUMBER, List, Text};
use json::Value;
use json_fields::some_field;
use json_whole::{FieldFault, Room, ValueFault, Wanted, as_object, need_u64, read_bytes_part};
use need_shape::{RawNeed, ShapeFault, shape};
use node_constraints::{ConstraintFault, barred};
use resource_graph::Graph;
use std::alloc::Global;
use text_table::TextTable;

/// The version of a jobspec, a whole number from 1: Field at `version` where there is none.
pub fn read_version(alloc: Global, value: &Value) -> Result<u64, SpecFault>
    requires { IsSome (as_object (view value.now)) }
    ensures read { IfOk result (λ version. version_of (view value.now) ≡ Ok version) }
    ensures told { IfErr result (IsFirstFault (version_of (view value.now))) }
{
    match need_u64(value, "version", 1, GREATEST_NUMBER) {
        Ok(version) => Ok(version),
        Err(fault) => Err(field_at(alloc, b"version", fault)),
    }
}

/// The request vertices of a jobspec, one or more, with the labels of their slots. The fault is the first one, vertex
/// by vertex, each before those in it, and in each key by key; and Field at `resources` where that is no such list.
pub fn read_resources(alloc: Global, value: &Value) -> Result<Requested, SpecFault>
    ensures read { IfOk result (λ read. resources_of (view value.now) ≡ Ok read) }
    ensures fine { IfOk result (λ read. AreRequests false read.needs) }
    ensures told { IfErr result (IsFirstFault (resources_of (view value.now))) }
{
    let mut labels = TextTable::new(alloc);
    match some_field(value, "resources") {
        Ok(values) => match read_requests(alloc, values, false, &mut labels) {
            Ok(needs) => Ok(Requested { needs, labels }),
            Err(fault) => Err(behind(alloc, b"resources", fault)),
        },
        Err(fault) => Err(field_at(alloc, b"resources", fault)),
    }
}

/// The nodes that a constraint bars: none where there is none.
fn bars_in(alloc: Global, graph: &Graph, constraint: Option<&Value>) -> Result<List<u32>, SpecFault>
    ensures bars { IfOk result (λ bars. bars_in graph.now (option_map (λ v. view v.now) constraint.entry) ≡ Ok bars) }
    ensures rising { IfOk result (λ bars. AreRisingFrom 0 bars) }
    ensures nodes { IfOk result (λ bars. AllByRecursion (IsNode graph.now.resources.vertices) bars) }
    ensures told { IfErr result (IsFirstFault (bars_in graph.now (option_map (λ v. view v.now) constraint.entry))) }
{
    let Some(constraint) = constraint else {
        return Ok(List::new(alloc));
    };
    match barred(alloc, graph, constraint) {
        Ok(bars) => Ok(bars),
        Err(ConstraintFault::Form { path }) => Err(SpecFault::Constraint { path }),
        Err(ConstraintFault::Memory) => Err(SpecFault::Memory),
    }
}

/// What request vertices ask for over a graph, for so many seconds and without the barred nodes; or the first fault of
/// their shape.
fn ask_for(
    alloc: Global,
    graph: &Graph,
    duration: u64,
    barred: List<u32>,
    request: &List<RawNeed>,
) -> Result<Ask, SpecFault>
    requires rising { AreRisingFrom 0 barred }
    requires nodes { AllByRecursion (IsNode graph.now.resources.vertices) barred }
    requires request { AreRequests false request.now }
    ensures ask { IfOk result (λ ask. ask_for graph.now.resources duration barred request.now ≡ Ok ask) }
    ensures proper { IfOk result (IsProperAsk graph.now.resources.vertices) }
    ensures told { IfErr result (IsFirstFault (ask_for graph.now.resources duration barred request.now)) }
{
    match shape(alloc, graph, request) {
        Ok(needs) => Ok(Ask {
            needs,
            duration,
            barred,
        }),
        Err(ShapeFault::Memory) => Err(SpecFault::Memory),
        Err(fault) => Err(SpecFault::Shape(fault)),
    }
}

/// What a jobspec with these request vertices asks for over a graph, by its attributes. The fault is the first one, of
/// the attributes, then of the constraint, then of the shape. What is asked for is proper for the graph.
pub fn ask_by(
    alloc: Global,
    graph: &Graph,
    value: &Value,
    request: &List<RawNeed>,
) -> Result<Ask, SpecFault>
    requires { AreRequests false request.now }
    ensures ask { IfOk result (λ ask. ask_by graph.now request.now (view value.now) ≡ Ok ask) }
    ensures proper { IfOk result (IsProperAsk graph.now.resources.vertices) }
    ensures told { IfErr result (IsFirstFault (ask_by graph.now request.now (view value.now))) }
{
    let attributes = read_attributes(alloc, value)?;
    let bars = bars_in(alloc, graph, attributes.constraint)?;
    ask_for(alloc, graph, attributes.duration, bars, request)
}

fn is_one(values: &[Value]) -> bool
    ensures { result ≡ is_one (items_view values.now) }
{
    values.len() == 1
}

/// Refuses a jobspec that has not one task, or has one that breaks a rule of tasks.
fn check_v1_tasks(alloc: Global, labels: &TextTable, value: &Value) -> Result<(), SpecFault>
    ensures fine { IsOk result → v1_tasks labels.now (view value.now) ≡ Ok true }
    ensures told { IfErr result (IsFirstFault (v1_tasks labels.now (view value.now))) }
{
    match task_list(alloc, value) {
        Ok(values) if !is_one(values) => Err(SpecFault::Task {
            path: Text::of(alloc, b"tasks")?,
        }),
        Ok(values) => check_tasks(alloc, labels, values),
        Err(fault) => Err(fault),
    }
}

/// Refuses a jobspec that has no task, or has one that breaks a rule of tasks.
pub fn check_task_list(alloc: Global, labels: &TextTable, value: &Value) -> Result<(), SpecFault>
    ensures fine { IsOk result → tasks_in labels.now (view value.now) ≡ Ok true }
    ensures told { IfErr result (IsFirstFault (tasks_in labels.now (view value.now))) }
{
    match some_field(value, "tasks") {
        Ok(tasks) => check_tasks(alloc, labels, tasks),
        Err(fault) => Err(field_at(alloc, b"tasks", fault)),
    }
}

/// What a value asks for over a graph.
fn v1_in(alloc: Global, graph: &Graph, value: &Value) -> Result<Ask, SpecFault>
    ensures ask { IfOk result (λ ask. v1_in graph.now (view value.now) ≡ Ok ask) }
    ensures proper { IfOk result (IsProperAsk graph.now.resources.vertices) }
    ensures told { IfErr result (IsFirstFault (v1_in graph.now (view value.now))) }
{
    if as_object(value).is_none() {
        return Err(field_at(alloc, b".", FieldFault::Kind));
    }
    let version = read_version(alloc, value)?;
    if version != 1 {
        return Err(SpecFault::Version);
    }
    let Requested { needs, labels } = read_resources(alloc, value)?;
    if !is_v1(needs.items()) {
        return Err(SpecFault::Form);
    }
    check_v1_tasks(alloc, &labels, value)?;
    ask_by(alloc, graph, value, &needs)
}

/// The value of a jobspec's bytes. Of its attributes no more is built than the duration and the constraint.
pub fn read_parts<'a, 'b: 'a>(
    alloc: Global,
    bytes: &'b [u8],
    room: &'a mut Room<'b>,
) -> Result<Value<'a>, SpecFault>
    ensures value { IfOk result (λ v. IsReadAs (value_of bytes.now) (view v)) }
    ensures told { IfErr result (λ fault.
        (fault ≡ SpecFault.Memory) ⊎ ((fault ≡ SpecFault.NotJson) × (value_of bytes.now ≡ None))) }
{
    let wanted = [
        Wanted {
            whole: &["version", "resources", "tasks"],
            part: "attributes",
        },
        Wanted {
            whole: &[],
            part: "system",
        },
        Wanted {
            whole: &["duration"],
            part: "constraints",
        },
    ];
    match read_bytes_part(alloc, bytes, &wanted, room) {
        Ok(value) => Ok(value),
        Err(ValueFault::NotJson) => Err(SpecFault::NotJson),
        Err(ValueFault::Memory) => Err(SpecFault::Memory),
    }
}

/// What a jobspec V1 (RFC 25) asks for over a graph, from its bytes. The fault is the first one, in this order: no
/// JSON, the version, the request vertices, the form, the tasks, the attributes, the constraint, the shape. What is
/// asked for is proper for the graph.
pub fn read_v1(alloc: Global, graph: &Graph, bytes: &[u8]) -> Result<Ask, SpecFault>
    ensures ask { IfOk result (λ ask. v1_of graph.now bytes.now ≡ Ok ask) }
    ensures proper { IfOk result (IsProperAsk graph.now.resources.vertices) }
    ensures told { IfErr result (IsFirstFault (v1_of graph.now bytes.now)) }
{
    let mut room = Room::new(alloc);
    read_v1_in(alloc, graph, bytes, &mut room)
}

/// The same by way of a room that is kept from text to text.
pub fn read_v1_in<'b>(
    alloc: Global,
    graph: &Graph,
    bytes: &'b [u8],
    room: &mut Room<'b>,
) -> Result<Ask, SpecFault>
    ensures ask { IfOk result (λ ask. v1_of graph.now bytes.now ≡ Ok ask) }
    ensures proper { IfOk result (IsProperAsk graph.now.resources.vertices) }
    ensures told { IfErr result (IsFirstFault (v1_of graph.now bytes.now)) }
{
    match read_parts(alloc, bytes, room) {
        Ok(value) => v1_in(alloc, graph, &value),
        Err(fault) => Err(fault),
    }
}
