//! The nodes that a constraint bars.
ghost use Rattle.std.specs.Prelude.{◌≡◌, [], Ok, IfOk, IfErr};
ghost use Rattle.std.specs.List.{AllByRecursion};
ghost use Rattle.json_whole.specs.Values.{view};
ghost use Rattle.flux_defs.specs.Graph.{IsNode};
ghost use Rattle.flux_defs.specs.Needs.{AreRisingFrom};
ghost use Rattle.node_constraints.specs.Faults.{fault_at};
ghost use Rattle.node_constraints.specs.Narrowing.{Finds};
ghost use Rattle.node_constraints.specs.Bars.{barred_by, root, bars_of, IsFirstFault};

use crate::faults::ConstraintFault;
use crate::narrowing::{behind, narrow};
use crate::nodes::{nodes_of, others_of};
use flux_defs::List;
use json::Value;
use resource_graph::Graph;
use std::alloc::Global;

/// Where the constraint of a jobspec stands.
const ROOT: &[u8] = b"attributes.system.constraints";

/// The nodes for which a constraint is false, or the fault in it.
fn false_for(alloc: Global, graph: &Graph, constraint: &Value) -> Result<Vec<u32>, ConstraintFault>
    ensures bars { IfOk result (λ bars. bars.items ≡ barred_by graph.now (view constraint.now)) }
    ensures found { Finds [] result (fault_at root (view constraint.now)) }
{
    let nodes = nodes_of(alloc, graph)?;
    let mut fitting = Vec::from_slice(alloc, nodes.as_slice())?;
    match narrow(alloc, graph, constraint, &mut fitting) {
        Ok(()) => Ok(others_of(alloc, nodes.as_slice(), fitting.as_slice())?),
        Err(fault) => Err(behind(alloc, ROOT, fault)),
    }
}

/// The nodes of a graph for which the constraint of a jobspec is false, in the order of their numbers. A constraint
/// (RFC
/// 31) is an object, true for a node where each of its keys is, and each key has a list: `properties` (each is one of
/// the node's, or behind `^` none), `hostlist` (some hostlist names the node), `ranks` (some idset has its rank), `and`
/// (each constraint is true), `or` (some is, or there is none), `not` (some is false). The fault names the innermost
/// constraint around the first fault, the keys of an object in the order of their bytes.
pub fn barred(
    alloc: Global,
    graph: &Graph,
    constraint: &Value,
) -> Result<List<u32>, ConstraintFault>
    ensures bars { IfOk result (λ bars. bars_of graph.now (view constraint.now) ≡ Ok bars) }
    ensures rising { IfOk result (λ bars. AreRisingFrom 0 bars) }
    ensures nodes { IfOk result (λ bars. AllByRecursion (IsNode graph.now.resources.vertices) bars) }
    ensures told { IfErr result (IsFirstFault (bars_of graph.now (view constraint.now))) }
{
    let bars = false_for(alloc, graph, constraint)?;
    Ok(List::of_vec(bars))
}
