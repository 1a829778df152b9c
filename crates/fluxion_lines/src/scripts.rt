//! An input as a script: each client's lines by themselves.
ghost use Rattle.std.specs.Prelude.{◌≡◌, ◌⊎◌, ◌^◌, ◌<◌, ◌++◌, ◌∷◌, [], Some, None, IsOk, length, map, slice_get};
ghost use Rattle.std.specs.Prelude.{slice_set, unwrap_or, IfOk, IfErr, OnOk};
ghost use Rattle.std.specs.List.{AllByRecursion, range_with_len};
ghost use Rattle.flux_defs.specs.Scheduler.{IsProper};
ghost use Rattle.fluxion_lines.specs.declared.input.Over.{Over};
ghost use Rattle.fluxion_lines.specs.Inputs.{over_in};
ghost use Rattle.fluxion_lines.specs.Scripts.{lines_by, script_of};

use crate::commands::Form;
use crate::input::{Input, InputFault, read_lines};
use flux_defs::{ClientLine, Limits, Line, List, Script};
use resource_graph::Graph;
use std::alloc::{AllocError, Global};
use text_forms::push;

/// No lines for each of so many clients.
fn no_lines(alloc: Global, count: usize) -> Result<List<List<Line>>, AllocError>
    ensures { IfOk result (λ lists. lists ≡ map (λ client. lines_by client []) (range_with_len 0 count)) }
{
    let mut lists = Vec::new(alloc);
    for client in 0..count {
        let _ = client;
        push(&mut lists, List::new(alloc))?;
    }
    Ok(List::of_vec(lists))
}

/// Adds a line to those of a client.
fn add_line(
    alloc: Global,
    lists: &mut List<List<Line>>,
    client: u32,
    line: Line,
) -> Result<(), AllocError>
    requires { client < length lists.old }
    ensures { OnOk result
        (lists.new ≡ slice_set lists.old client (unwrap_or (slice_get lists.old client) [] ++ line ∷ [])) }
{
    let mut own = lists.put(client as usize, List::new(alloc));
    match own.push(line) {
        Ok(()) => {
            let _empty = lists.put(client as usize, own);
            Ok(())
        }
        Err((_, fault)) => Err(fault),
    }
}

/// The lines, client by client.
fn by_client(
    alloc: Global,
    count: usize,
    lines: List<ClientLine>,
) -> Result<List<List<Line>>, AllocError>
    requires { AllByRecursion (λ l. l.client < count) lines }
    ensures { IfOk result (λ lists. lists ≡ map (λ client. lines_by client lines) (range_with_len 0 count)) }
{
    let mut lists = no_lines(alloc, count)?;
    for told in lines.into_vec() {
        let ClientLine {
            client,
            line,
            command,
        } = told;
        add_line(alloc, &mut lists, client, Line { line, command })?;
    }
    Ok(lists)
}

/// The script of an input over a graph: its clients in the order of their first lines, and beside each its lines. The
/// faults are those of `read_lines`, and each command is proper for the graph.
pub fn read_input(
    alloc: Global,
    graph: &Graph,
    form: Form,
    bytes: &[u8],
    limits: &Limits,
) -> Result<Script, InputFault>
    requires lines { limits.now.lines < 2 ^ 32 }
    requires clients { limits.now.clients < 2 ^ 32 }
    ensures script { IfOk result (λ script. script ≡ script_of graph.now form bytes.now) }
    ensures proper { IfOk result (λ script. AllByRecursion
        (λ lines. AllByRecursion (λ l. IsProper graph.now.resources.vertices l.command) lines) script.lines) }
    ensures within { IsOk result → over_in limits.now graph.now form bytes.now ≡ None }
    ensures over { IfErr result (λ fault. (fault ≡ InputFault.Memory) ⊎ ((over : Over)
        × (fault ≡ InputFault.Over over) × (over_in limits.now graph.now form bytes.now ≡ Some over))) }
{
    let Input { clients, lines } = match read_lines(alloc, graph, form, bytes, limits) {
        Ok(read) => read,
        Err(fault) => return Err(fault),
    };
    let lines = by_client(alloc, clients.len(), lines)?;
    Ok(Script { clients, lines })
}
