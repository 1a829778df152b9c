//! Inputs, played on threads over two nodes of four cores.
ghost use Rattle.std.specs.Prelude.{◌≡◌, ◌<◌, [], length, IfOk};
ghost use Rattle.std.specs.List.{AllByRecursion};
ghost use Rattle.std.specs.Arc.{arc_value};
ghost use Rattle.flux_defs.specs.Scheduler.{IsProper};
ghost use Rattle.turn_table.specs.declared.view.TheConstants.{ALL_SHARES};
ghost use Rattle.one_history.specs.Together.{NumbersApart};

use flux_defs::{Gate, Limits, SHIPPED, Script};
use fluxion_lines::{Form, read_input};
use history_scenes::{Bounds, core_over};
use one_history::{Played, play_script};
use resource_graph::Graph;
use std::alloc::Global;
use std::sync::{Arc, Wait};
use std::test::Fail;
use std::thread::Threads;

/// The second at which time ends, and how many claims all accepted jobs may have.
pub(crate) const BOUNDS: Bounds = Bounds {
    horizon: 1_000,
    claims: SHIPPED.claims,
};

/// The script of an input.
fn script_of(alloc: Global, graph: &Graph, input: &[u8]) -> Result<Script, Fail>
    ensures few { IfOk result (λ script. length script.lines < ALL_SHARES) }
    ensures proper { IfOk result (λ script. AllByRecursion
        (λ lines. AllByRecursion (λ l. IsProper graph.now.resources.vertices l.command) lines) script.lines) }
    ensures apart { IfOk result (λ script. NumbersApart script) }
{
    match read_input(alloc, graph, Form::Rfc14, input, &Limits::shipped()) {
        Ok(script) => Ok(script),
        Err(_) => Err(Fail::from("no script")),
    }
}

/// Plays an input, a thread a client.
pub(crate) fn played<R: Threads + Wait + Sync, G: Gate + Sync>(
    rt: &R,
    alloc: Global,
    graph: &Arc<Graph, Global>,
    input: &[u8],
    gate: &G,
) -> Result<Played, Fail>
    ensures { IfOk result (λ played. played.core.setting.graph ≡ (arc_value graph.now).resources) }
{
    let core = core_over(alloc, graph, BOUNDS)?;
    let script = script_of(alloc, graph, input)?;
    Ok(play_script(rt, alloc, core, script, gate)?)
}
