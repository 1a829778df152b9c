//! Schedulers over graphs, and the lines of inputs.
ghost use Rattle.std.specs.Prelude.{◌≡◌, ◌⊎◌, List, None, Some, [], codes, slice_get, Ok, Err, IfOk, IfErr};
ghost use Rattle.std.specs.Arc.{arc_value};
ghost use Rattle.flux_defs.specs.Scheduler.{IsProper};
ghost use Rattle.flux_defs.specs.declared.limits.TheConstants.{SHIPPED};
ghost use Rattle.graph_json.specs.declared.faults.ReadFault.{ReadFault};
ghost use Rattle.prune_filters.specs.declared.rules.FilterFault.{FilterFault};
ghost use Rattle.prune_filters.specs.declared.rules.Rule.{Rule};
ghost use Rattle.prune_filters.specs.Filters.{AreRulesOf, IsFaultOf};
ghost use Rattle.fluxion_lines.specs.declared.commands.Form.TheVariants as form;
ghost use Rattle.fluxion_lines.specs.declared.input.Over.{Over};
ghost use Rattle.fluxion_lines.specs.declared.input.InputFault.{InputFault};
ghost use Rattle.fluxion_lines.specs.declared.input.InputFault.TheVariants as fault;
ghost use Rattle.fluxion_lines.specs.Inputs.{numbered_lines, over_in};
ghost use Rattle.sched_core.specs.Courses.{empty_course};
ghost use Rattle.sched_core.specs.Played.{AreProper};
ghost use Rattle.history_scenes.specs.declared.unmade.Unmade.TheVariants as unmade;

use crate::unmade::Unmade;
use flux_defs::{ClientLine, Limits, List};
use fluxion_lines::{Form, InputFault, read_lines};
use prune_filters::{FilterFault, Rules};
use resource_graph::Graph;
use sched_core::Core;
use std::alloc::{AllocError, Global};
use std::sync::Arc;

/// The second at which time ends, and how many claims all accepted jobs may have.
#[derive(Clone, Copy)]
pub struct Bounds {
    pub horizon: u64,
    pub claims: u64,
}

/// A scheduler over the graph, with totals of cores at each vertex.
///
/// # Errors
/// Those of `Rules::read`.
pub fn core_over(
    alloc: Global,
    graph: &Arc<Graph, Global>,
    bounds: Bounds,
) -> Result<Core, FilterFault>
    ensures graph { IfOk result (λ core. core.setting.graph ≡ (arc_value graph.now).resources) }
    ensures core { IfOk result (λ core. (rules : List Rule) × AreRulesOf (codes "ALL:core") rules
        × (core ≡ empty_course (arc_value graph.now).resources rules bounds.horizon bounds.claims)) }
    ensures new { IfOk result (λ core. core.journal ≡ []) }
    ensures fault { IfErr result (IsFaultOf (codes "ALL:core")) }
{
    let rules = Rules::read(alloc, b"ALL:core")?;
    let graph = Arc::try_clone(graph)?;
    Ok(Core::new(alloc, graph, rules, bounds.horizon, bounds.claims)?)
}

/// The lines of an input, in its order.
///
/// # Errors
/// Those of `read_lines`.
pub fn lines_in(alloc: Global, graph: &Graph, text: &[u8]) -> Result<List<ClientLine>, InputFault>
    ensures lines { IfOk result (λ lines. lines ≡ numbered_lines graph.now form.Rfc14 text.now) }
    ensures proper { IfOk result (AreProper graph.now.resources.vertices) }
    ensures over { IfErr result (λ why. (why ≡ fault.Memory) ⊎ ((over : Over)
        × (why ≡ fault.Over over) × (over_in SHIPPED graph.now form.Rfc14 text.now ≡ Some over))) }
{
    let input = read_lines(alloc, graph, Form::Rfc14, text, &Limits::shipped())?;
    Ok(input.lines)
}

/// The first line of an input.
///
/// # Errors
/// Those of `read_lines`, and `Line` where there is none.
pub fn line_in(alloc: Global, graph: &Graph, text: &[u8]) -> Result<ClientLine, Unmade>
    ensures line { IfOk result (λ line. slice_get (numbered_lines graph.now form.Rfc14 text.now) 0 ≡ Some line) }
    ensures proper { IfOk result (λ line. IsProper graph.now.resources.vertices line.command) }
    ensures none { result ≡ Err unmade.Line → slice_get (numbered_lines graph.now form.Rfc14 text.now) 0 ≡ None }
    ensures graph { (why : ReadFault) → result ≡ Err (unmade.Graph why) → ⊥ }
    ensures rules { (why : FilterFault) → result ≡ Err (unmade.Rules why) → ⊥ }
    ensures over { (why : InputFault) → result ≡ Err (unmade.Input why) → (why ≡ fault.Memory) ⊎ ((over : Over)
        × (why ≡ fault.Over over) × (over_in SHIPPED graph.now form.Rfc14 text.now ≡ Some over)) }
{
    let lines = lines_in(alloc, graph, text)?;
    let Some(found) = lines.get(0) else {
        return Err(Unmade::Line);
    };
    let command = found.command.copy(alloc)?;
    Ok(ClientLine {
        client: found.client,
        line: found.line,
        command,
    })
}
