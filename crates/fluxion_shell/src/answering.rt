//! The text that answers an input over a graph.
ghost use Rattle.std.specs.Prelude.{◌≡◌, ◌<◌, ◌^◌, Some, None, length, IsOk, IsErrOf, IfOk};
ghost use Rattle.std.specs.List.{AllByRecursion};
ghost use Rattle.std.specs.Arc.{arc_value};
ghost use Rattle.flux_defs.specs.Scheduler.{IsProper};
ghost use Rattle.fluxion_lines.specs.declared.input.Over.{Over};
ghost use Rattle.fluxion_lines.specs.Columns.{line_feeds};
ghost use Rattle.fluxion_lines.specs.Inputs.{over_in};
ghost use Rattle.fluxion_lines.specs.Texts.{history_text};
ghost use Rattle.sched_core.specs.Courses.{empty_course};
ghost use Rattle.turn_table.specs.declared.view.TheConstants.{ALL_SHARES};
ghost use Rattle.one_history.specs.Together.{NumbersApart, IsPlayedTogether};
ghost use Rattle.flux_defs.specs.declared.limits.TheConstants.{SHIPPED};
ghost use Rattle.asked_calls.specs.Calls.{served_held};
ghost use Rattle.fluxion_shell.specs.Outputs.{IsOutput};

use asked_calls::calls::Serving;
use flux_defs::{Entry, Gate, Limits, List, Script, Text};
use fluxion_lines::{InputFault, history_text, line_feeds, read_input};
use one_history::{Played, play_script};
use prune_filters::Rules;
use resource_graph::Graph;
use sched_core::Core;
use snapshot_store::Pages;
use std::alloc::{AllocError, Global};
use std::sync::{Arc, Wait};
use std::thread::Threads;

/// The history of a script over the graph, and its clients' names: all clients hand in their lines beside each other.
pub(crate) fn played<R: Threads + Wait + Sync, G: Gate + Sync>(
    rt: &R,
    alloc: Global,
    graph: &Arc<Graph>,
    rules: Rules,
    horizon: u64,
    script: Script,
    gate: &G,
) -> Result<Played, AllocError>
    requires few { length script.lines < ALL_SHARES }
    requires proper { AllByRecursion (λ lines. AllByRecursion
        (λ l. IsProper (arc_value graph.now).resources.vertices l.command) lines) script.lines }
    requires apart { NumbersApart script }
    ensures clients { IfOk result (λ played. played.clients ≡ script.clients) }
    ensures together { IfOk result (λ played. IsPlayedTogether
        (empty_course (arc_value graph.now).resources rules horizon SHIPPED.claims) played.core script) }
{
    let claims = Limits::shipped().claims;
    let core = Core::new(alloc, Arc::try_clone(graph)?, rules, horizon, claims)?;
    play_script(rt, alloc, core, script, gate)
}

/// The text of a history. Its lines are told apart by their line feeds, so a text with another one, which no reply has,
/// is not given out.
fn text_of(
    alloc: Global,
    graph: &Graph,
    clients: &List<Text>,
    history: &Pages<Entry>,
) -> Result<Text, AllocError>
    ensures text { IfOk result (λ text. text ≡ history_text graph.now clients.now history.now) }
    ensures lines { IfOk result (λ text. line_feeds text ≡ length history.now) }
    ensures few { IsOk result → length history.now < 2 ^ 64 }
{
    let text = history_text(alloc, graph, clients, history)?;
    let feeds = line_feeds(text.bytes()) as u64;
    let entries = history.len();
    if feeds != entries {
        return Err(AllocError);
    }
    Ok(text)
}

/// The text of a history that answers the input's lines, as they are to be answered; or the first line that is past a
/// limit. Where a session finds no memory there is no text.
pub(crate) fn answer<R: Threads + Wait + Sync, G: Gate + Sync>(
    rt: &R,
    alloc: Global,
    graph: Graph,
    serving: Serving,
    input: &[u8],
    gate: &G,
) -> Result<Text, InputFault>
    ensures output { IfOk result (IsOutput (served_held serving) graph input.now) }
    ensures within { IsOk result → over_in SHIPPED graph serving.form input.now ≡ None }
    ensures over { (over : Over) → IsErrOf result (InputFault.Over over) →
        over_in SHIPPED graph serving.form input.now ≡ Some over }
{
    graph.is_valid();
    let Serving {
        name: _,
        horizon,
        rules,
        form,
    } = serving;
    let script = match read_input(alloc, &graph, form, input, &Limits::shipped()) {
        Ok(script) => script,
        Err(fault) => return Err(fault),
    };
    let graph = Arc::new(alloc, graph)?;
    let Played { clients, core } = played(rt, alloc, &graph, rules, horizon, script, gate)?;
    let text = text_of(alloc, &graph, &clients, core.entries())?;
    Ok(text)
}
