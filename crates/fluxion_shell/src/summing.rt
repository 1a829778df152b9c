//! The counts of a load.
ghost use Rattle.std.specs.Prelude.{◌≡◌, ◌≤◌, IfOk};
ghost use Rattle.load_script.specs.declared.lines.TheConstants.{MOST_COMMANDS};
ghost use Rattle.fluxion_lines.specs.declared.input.InputFault.TheVariants.{Memory};
ghost use Rattle.fluxion_shell.specs.Outputs.{IsSummary};

use crate::answering::played;
use asked_calls::calls::{Serving, plain_serving};
use flux_defs::{Gate, Text};
use fluxion_lines::{InputFault, read_input};
use load_script::{LOAD_LIMITS, counts_text, load_graph, load_text};
use std::alloc::{AllocError, Global};
use std::sync::{Arc, Wait};
use std::thread::Threads;

/// The error of this fault, which is want of memory.
fn memory_fault(_fault: InputFault) -> AllocError
    requires { _fault ≡ Memory }
{
    AllocError
}

/// The text of the counts of the load of so many commands. They are one client's, so they are played in their order.
/// The load passes no limit, so only want of memory keeps it from being played.
pub(crate) fn summary<R: Threads + Wait + Sync, G: Gate + Sync>(
    rt: &R,
    alloc: Global,
    commands: u64,
    gate: &G,
) -> Result<Text, AllocError>
    requires { commands ≤ MOST_COMMANDS }
    ensures { IfOk result (IsSummary commands) }
{
    let serving = plain_serving(alloc)?;
    let graph = load_graph(alloc)?;
    let input = load_text(alloc, commands)?;
    let script = match read_input(alloc, &graph, serving.form, input.bytes(), &LOAD_LIMITS) {
        Ok(script) => script,
        Err(fault) => return Err(memory_fault(fault)),
    };
    graph.is_valid();
    let graph = Arc::new(alloc, graph)?;
    let Serving {
        name: _,
        horizon,
        rules,
        form: _,
    } = serving;
    let answered = played(rt, alloc, &graph, rules, horizon, script, gate)?;
    counts_text(alloc, answered.core.entries())
}
