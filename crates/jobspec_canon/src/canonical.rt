//! A jobspec in the canonical form from its bytes.
ghost use Rattle.std.specs.Prelude.{◌≡◌, Ok, IfOk, IfErr};
ghost use Rattle.json_whole.specs.Values.{view};
ghost use Rattle.flux_defs.specs.Needs.{IsProperAsk};
ghost use Rattle.jobspec_v1.specs.Faults.{IsFirstFault};
ghost use Rattle.jobspec_v1.specs.Jobspecs.{v1_of};
ghost use Rattle.jobspec_canon.specs.Canonical.{canon_in, canon_of};

use flux_defs::Ask;
use jobspec_v1::SpecFault;
use jobspec_v1::faults::field_at;
use jobspec_v1::jobspecs::{ask_by, check_task_list, read_parts, read_resources, read_version};
use jobspec_v1::requests::Requested;
use json::Value;
use json_whole::{FieldFault, Room, as_object};
use resource_graph::Graph;
use std::alloc::Global;

/// What a value asks for over a graph.
fn canon_in(alloc: Global, graph: &Graph, value: &Value) -> Result<Ask, SpecFault>
    ensures ask { IfOk result (λ ask. canon_in graph.now (view value.now) ≡ Ok ask) }
    ensures proper { IfOk result (IsProperAsk graph.now.resources.vertices) }
    ensures told { IfErr result (IsFirstFault (canon_in graph.now (view value.now))) }
{
    if as_object(value).is_none() {
        return Err(field_at(alloc, b".", FieldFault::Kind));
    }
    read_version(alloc, value)?;
    let Requested { needs, labels } = read_resources(alloc, value)?;
    check_task_list(alloc, &labels, value)?;
    ask_by(alloc, graph, value, &needs)
}

/// What a jobspec in the canonical form (RFC 14) asks for over a graph, from its bytes: any version from 1 on, request
/// vertices of any types in any nesting, with counts, and quantities of pools, and one task or more. The fault is the
/// first one, in this order: no JSON, the version, the request vertices, the tasks, the attributes, the constraint, the
/// shape. What is asked for is proper for the graph, and what `jobspec_v1::read_v1` accepts is read as the same ask.
pub fn read_canon(alloc: Global, graph: &Graph, bytes: &[u8]) -> Result<Ask, SpecFault>
    ensures ask { IfOk result (λ ask. canon_of graph.now bytes.now ≡ Ok ask) }
    ensures proper { IfOk result (IsProperAsk graph.now.resources.vertices) }
    ensures told { IfErr result (IsFirstFault (canon_of graph.now bytes.now)) }
    ensures same { IfOk result (λ ask. (v1 : Ask) → v1_of graph.now bytes.now ≡ Ok v1 → ask ≡ v1) }
    ensures accepts { IfErr result
        (λ fault. (v1 : Ask) → v1_of graph.now bytes.now ≡ Ok v1 → fault ≡ SpecFault.Memory) }
{
    let mut room = Room::new(alloc);
    read_canon_in(alloc, graph, bytes, &mut room)
}

/// The same by way of a room that is kept from text to text.
pub fn read_canon_in<'b>(
    alloc: Global,
    graph: &Graph,
    bytes: &'b [u8],
    room: &mut Room<'b>,
) -> Result<Ask, SpecFault>
    ensures ask { IfOk result (λ ask. canon_of graph.now bytes.now ≡ Ok ask) }
    ensures proper { IfOk result (IsProperAsk graph.now.resources.vertices) }
    ensures told { IfErr result (IsFirstFault (canon_of graph.now bytes.now)) }
{
    match read_parts(alloc, bytes, room) {
        Ok(value) => canon_in(alloc, graph, &value),
        Err(fault) => Err(fault),
    }
}
