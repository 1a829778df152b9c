//! The top call.
ghost use Rattle.std.specs.Prelude.{◌≡◌, ◌≤◌, ◌++◌, None, IfOk, codes};
ghost use Rattle.flux_io.specs.Counts.{Rose};
ghost use Rattle.graph_json.specs.WrittenGraph.{graph_text};
ghost use Rattle.fluxion_lines.specs.declared.input.Over.{Over};
ghost use Rattle.load_script.specs.declared.lines.TheConstants.{MOST_COMMANDS};
ghost use Rattle.asked_calls.specs.Calls.{Call, serve, print, load, IsCallOf, served_held};
ghost use Rattle.fluxion_shell.specs.Causes.{limit_of, LeavesInput, LeavesFiles, HasCause, IsFirstShown};
ghost use Rattle.fluxion_shell.specs.Runs.{IsUsage, IsAnswered, IsAnsweredInPart, WritesNothing, FitsRoom};

use crate::answering::answer;
use crate::loading::{load, too_long};
use crate::status::{Limited, Status, Which};
use crate::summing::summary;
use asked_calls::calls::{Asked, Serving, read_call};
use flux_defs::{Gate, List, MOST_FILE_BYTES, Text};
use flux_io::{Files, ReadAllFail, Sink, Source, read_all, write_all};
use fluxion_lines::{InputFault, Over};
use graph_json::write_graph;
use resource_graph::Graph;
use std::alloc::{AllocError, Global};
use std::sync::Wait;
use std::thread::Threads;

/// The answer where a line is past a limit.
fn limit_of(over: Over) -> Status
    ensures { result ≡ limit_of over }
{
    let (which, found) = match over {
        Over::Lines { line } => (Which::Lines, line),
        Over::LineBytes { line } => (Which::LineBytes, line),
        Over::Clients { line } => (Which::Clients, line),
        Over::Barred { line } => (Which::Barred, line),
    };
    Status::Limit(Limited { which, found })
}

/// Answers the input's lines over the graph of a file.
fn serve<R: Threads + Wait + Sync, F: Files, S: Source, O: Sink, G: Gate + Sync>(
    rt: &R,
    alloc: Global,
    serving: Serving,
    files: &mut F,
    input: &mut S,
    out: &mut O,
    gate: &G,
) -> Status
    ensures answered { IsAnswered (serve (served_held serving)) (F.told files.old) (S.left input.old)
        (O.held out.old) (O.held out.new) result }
    ensures front { IsAnsweredInPart (serve (served_held serving)) (F.told files.old) (S.left input.old)
        (O.held out.old) (O.held out.new) result }
    ensures nothing { WritesNothing (O.held out.old) (O.held out.new) result }
    ensures end { LeavesInput (serve (served_held serving)) result (S.left input.old) (S.left input.new)
        (S.faults input.old) (S.faults input.new) }
    ensures cause { HasCause (serve (served_held serving)) (F.told files.old) (S.left input.old)
        (Rose (F.faults files.old) (F.faults files.new)) (Rose (F.refused files.old) (F.refused files.new))
        (Rose (S.faults input.old) (S.faults input.new)) (Rose (O.faults out.old) (O.faults out.new)) result }
    ensures first { IsFirstShown (serve (served_held serving)) (F.told files.old) (S.left input.old)
        (Rose (F.faults files.old) (F.faults files.new)) (Rose (S.faults input.old) (S.faults input.new)) result }
    ensures room { FitsRoom (serve (served_held serving)) (F.told files.old) (S.left input.old)
        (O.room out.old) (O.faults out.old) (O.faults out.new) }
{
    let graph = match load(alloc, serving.name.as_str(), files) {
        Ok(graph) => graph,
        Err(status) => return status,
    };
    let lines = match read_all(alloc, input, MOST_FILE_BYTES) {
        Ok(lines) => lines,
        Err(ReadAllFail::Failed) => return Status::Read,
        Err(ReadAllFail::Long) => return too_long(Which::InputBytes),
        Err(ReadAllFail::Memory) => return Status::Memory,
    };
    let answers = match answer(rt, alloc, graph, serving, lines.bytes(), gate) {
        Ok(text) => text,
        Err(InputFault::Over(over)) => return limit_of(over),
        Err(InputFault::Memory) => return Status::Memory,
    };
    match write_all(out, &answers) {
        Ok(()) => Status::Ok,
        Err(_) => Status::Write,
    }
}

/// The text of a graph, and a line feed.
fn printed(alloc: Global, graph: &Graph) -> Result<Text, AllocError>
    ensures { IfOk result (λ text. text ≡ graph_text graph.now ++ codes "\n") }
{
    let mut text = write_graph(alloc, graph)?.into_vec();
    text.push(b'\n')?;
    Ok(Text::of_vec(text))
}

/// Writes the graph of the file of this name. It is given no input, so none is told.
fn print_graph<F: Files, O: Sink>(alloc: Global, name: &str, files: &mut F, out: &mut O) -> Status
    ensures answered { IsAnswered (print name.now) (F.told files.old) None (O.held out.old) (O.held out.new) result }
    ensures front { IsAnsweredInPart (print name.now) (F.told files.old) None (O.held out.old) (O.held out.new) result }
    ensures nothing { WritesNothing (O.held out.old) (O.held out.new) result }
    ensures cause { HasCause (print name.now) (F.told files.old) None (Rose (F.faults files.old) (F.faults files.new))
        (Rose (F.refused files.old) (F.refused files.new)) ⊥ (Rose (O.faults out.old) (O.faults out.new)) result }
    ensures first { IsFirstShown (print name.now) (F.told files.old) None
        (Rose (F.faults files.old) (F.faults files.new)) ⊥ result }
    ensures room { FitsRoom (print name.now) (F.told files.old) None
        (O.room out.old) (O.faults out.old) (O.faults out.new) }
{
    let graph = match load(alloc, name, files) {
        Ok(graph) => graph,
        Err(status) => return status,
    };
    let text = match printed(alloc, &graph) {
        Ok(text) => text,
        Err(_) => return Status::Memory,
    };
    match write_all(out, &text) {
        Ok(()) => Status::Ok,
        Err(_) => Status::Write,
    }
}

/// Plays the load of so many commands, and writes its counts. It is given no files and no input, so none are told.
fn print_summary<R: Threads + Wait + Sync, O: Sink, G: Gate + Sync>(
    rt: &R,
    alloc: Global,
    commands: u64,
    out: &mut O,
    gate: &G,
) -> Status
    requires few { commands ≤ MOST_COMMANDS }
    ensures answered { IsAnswered (load commands) None None (O.held out.old) (O.held out.new) result }
    ensures front { IsAnsweredInPart (load commands) None None (O.held out.old) (O.held out.new) result }
    ensures nothing { WritesNothing (O.held out.old) (O.held out.new) result }
    ensures cause { HasCause (load commands) None None ⊥ ⊥ ⊥ (Rose (O.faults out.old) (O.faults out.new)) result }
    ensures first { IsFirstShown (load commands) None None ⊥ ⊥ result }
    ensures room { FitsRoom (load commands) None None (O.room out.old) (O.faults out.old) (O.faults out.new) }
{
    let text = match summary(rt, alloc, commands, gate) {
        Ok(text) => text,
        Err(_) => return Status::Memory,
    };
    match write_all(out, &text) {
        Ok(()) => Status::Ok,
        Err(_) => Status::Write,
    }
}

/// Runs the program: `words` are those after its name, as the system gives them.
///
/// `serve GRAPH` answers each line of the input over the graph of that file, and writes the answers. `--horizon N` sets
/// the second at which time ends, `--filters LIST` which totals are kept, and `--jobspec FORM` how the jobspecs are
/// written. `graph GRAPH` writes the graph of that file, and reads no input. `load N` plays a script of N commands,
/// from
/// 1 to 20,000, over a graph of its own, and writes how often each reply came; it reads no file and no input, and what
/// it writes is a function of N.
///
/// All clients of the input hand in their lines beside each other, a thread for each; the gate is told what they do.
/// With one client the lines are answered in their order. It may wait.
///
/// # Errors
/// Each status but `Ok` has its cause (clause `cause`); of those that told files and a told input show, the first
/// comes.
pub fn run<R: Threads + Wait + Sync, F: Files, S: Source, O: Sink, G: Gate + Sync>(
    rt: &R,
    alloc: Global,
    words: &List<Text>,
    files: &mut F,
    input: &mut S,
    out: &mut O,
    gate: &G,
) -> Status
    ensures usage { IsUsage words.now result }
    ensures answered { (call : Call) → IsCallOf words.now call →
        IsAnswered call (F.told files.old) (S.left input.old) (O.held out.old) (O.held out.new) result }
    ensures front { (call : Call) → IsCallOf words.now call →
        IsAnsweredInPart call (F.told files.old) (S.left input.old) (O.held out.old) (O.held out.new) result }
    ensures nothing { WritesNothing (O.held out.old) (O.held out.new) result }
    ensures end { (call : Call) → IsCallOf words.now call →
        LeavesInput call result (S.left input.old) (S.left input.new) (S.faults input.old) (S.faults input.new)
        × LeavesFiles call (F.faults files.old) (F.faults files.new) (F.refused files.old) (F.refused files.new) }
    ensures cause { (call : Call) → IsCallOf words.now call → HasCause call (F.told files.old) (S.left input.old)
        (Rose (F.faults files.old) (F.faults files.new)) (Rose (F.refused files.old) (F.refused files.new))
        (Rose (S.faults input.old) (S.faults input.new)) (Rose (O.faults out.old) (O.faults out.new)) result }
    ensures first { (call : Call) → IsCallOf words.now call → IsFirstShown call (F.told files.old) (S.left input.old)
        (Rose (F.faults files.old) (F.faults files.new)) (Rose (S.faults input.old) (S.faults input.new)) result }
    ensures room { (call : Call) → IsCallOf words.now call →
        FitsRoom call (F.told files.old) (S.left input.old) (O.room out.old) (O.faults out.old) (O.faults out.new) }
{
    match read_call(alloc, words) {
        Ok(Some(Asked::Serve(serving))) => { serve(rt, alloc, serving, files, input, out, gate) }
        Ok(Some(Asked::Print(name))) => print_graph(alloc, name.as_str(), files, out),
        Ok(Some(Asked::Load(commands))) => print_summary(rt, alloc, commands, out, gate),
        Ok(None) => Status::Usage,
        Err(_) => Status::Memory,
    }
}
