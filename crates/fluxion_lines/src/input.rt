//! All lines of an input.
ghost use Rattle.std.specs.Prelude.{◌≡◌, ◌⊎◌, ◌^◌, ◌+◌, ◌<◌, ◌≤◌, ◌++◌, ◌∷◌, [], Some, None, IsOk, length, IfOk, IfErr};
ghost use Rattle.std.specs.Prelude.{OnOk};
ghost use Rattle.std.specs.List.{AllByRecursion};
ghost use Rattle.flux_defs.specs.Scheduler.{IsProper};
ghost use Rattle.text_table.specs.Tables.{with_text};
ghost use Rattle.fluxion_lines.specs.declared.input.Over.{Over};
ghost use Rattle.fluxion_lines.specs.Commands.{bars_of_command};
ghost use Rattle.fluxion_lines.specs.Inputs.{client_in, line_at, clients_of, numbered_lines, over_size, line_over_size};
ghost use Rattle.fluxion_lines.specs.Inputs.{over_bars, over_in};

use crate::commands::{Form, bars_of_command, client_of, command_of};
use crate::lines::{cut_line, without_return};
use flux_defs::{ClientLine, Command, Limits, List, Text};
use json_whole::Room;
use resource_graph::Graph;
use std::alloc::{AllocError, AllocFailed, Global};
use text_forms::push;
use text_table::TextTable;

/// The lines of an input in their order, and its clients in the order of their first lines.
#[derive(Debug, Drop)]
pub struct Input {
    pub clients: List<Text>,
    pub lines: List<ClientLine>,
}

/// The line that is the first past a limit, and which limit that is.
#[derive(Clone, Copy, Debug, PartialEq, Eq)]
pub enum Over {
    /// There are too many lines.
    Lines { line: u64 },
    /// It has too many bytes before its line feed.
    LineBytes { line: u64 },
    /// It is the first line of one client too many.
    Clients { line: u64 },
    /// With the nodes that its ask bars, the lines up to it bar too many.
    Barred { line: u64 },
}

/// Why an input isn't read.
#[derive(Clone, Copy, Debug, PartialEq, Eq)]
pub enum InputFault {
    Over(Over),
    Memory,
}

impl From<AllocError> for InputFault {
    ghost use Rattle.std.specs.Prelude.{◌≡◌};
    ghost use Rattle.fluxion_lines.specs.declared.input.InputFault.TheVariants.{Memory};

    ghost from_gives = { λ _ e. e ≡ Memory };

    fn from(_: AllocError) -> InputFault {
        InputFault::Memory
    }
}

impl<T: Drop> From<AllocFailed<T>> for InputFault {
    ghost use Rattle.std.specs.Prelude.{◌≡◌};
    ghost use Rattle.fluxion_lines.specs.declared.input.InputFault.TheVariants.{Memory};

    ghost from_gives = { λ _ e. e ≡ Memory };

    fn from(_: AllocFailed<T>) -> InputFault {
        InputFault::Memory
    }
}

/// The names of the clients.
fn names_of(alloc: Global, table: &TextTable) -> Result<List<Text>, AllocError>
    ensures { IfOk result (λ names. names ≡ table.now) }
{
    let mut names = Vec::new(alloc);
    let mut number = 0;
    while let Some(name) = table.text(number) {
        names.push(Text::of(alloc, name)?)?;
        number += 1;
    }
    Ok(List::of_vec(names))
}

/// Which limit a line passes by its text, where it is the line of this number, and the clients are then so many.
fn over_size(limits: &Limits, at: u64, bytes: usize, clients: usize) -> Option<Over>
    ensures { result ≡ over_size limits.now at bytes clients }
{
    if at > limits.lines {
        return Some(Over::Lines { line: at });
    }
    if bytes as u64 > limits.line_bytes {
        return Some(Over::LineBytes { line: at });
    }
    if clients as u64 > limits.clients {
        return Some(Over::Clients { line: at });
    }
    None
}

/// The line of a number, from its bytes; the table of clients gains its client. A jobspec is read only where the line
/// is past no limit that its text tells.
fn read_line<'b>(
    alloc: Global,
    graph: &Graph,
    form: Form,
    limits: &Limits,
    at: u64,
    raw: &'b [u8],
    table: &mut TextTable,
    room: &mut Room<'b>,
) -> Result<ClientLine, InputFault>
    requires lines { limits.now.lines < 2 ^ 32 }
    requires clients { limits.now.clients < 2 ^ 32 }
    ensures line { IfOk result (λ line. line ≡ line_at graph.now form table.old at raw.now) }
    ensures table { OnOk result (table.new ≡ with_text table.old (client_in raw.now)) }
    ensures within { OnOk result (line_over_size limits.now table.old at raw.now ≡ None) }
    ensures proper { IfOk result (λ line. IsProper graph.now.resources.vertices line.command) }
    ensures over { IfErr result (λ fault. (fault ≡ InputFault.Memory) ⊎ ((over : Over) × (fault ≡ InputFault.Over over)
        × (line_over_size limits.now table.old at raw.now ≡ Some over))) }
{
    let text = without_return(raw);
    let client = table.add(alloc, client_of(text))?;
    if let Some(over) = over_size(limits, at, raw.len(), table.len()) {
        return Err(InputFault::Over(over));
    }
    let command = command_of(alloc, graph, form, text, room)?;
    Ok(ClientLine {
        client: client as u32,
        line: at as u32,
        command,
    })
}

/// How many nodes are barred with those of one more command, behind so many; or these are too many.
fn with_bars(limits: &Limits, at: u64, bars: u64, command: &Command) -> Result<u64, Over>
    requires { bars ≤ limits.now.barred }
    ensures sum { IfOk result (λ sum. sum ≡ bars + bars_of_command command.now) }
    ensures most { IfOk result (λ sum. sum ≤ limits.now.barred) }
    ensures over { IfErr result (λ over. over_bars limits.now at (bars + bars_of_command command.now) ≡ Some over) }
{
    let own = bars_of_command(command) as u64;
    if own > limits.barred - bars {
        return Err(Over::Barred { line: at });
    }
    Ok(bars + own)
}

/// The lines of an input, over a graph: each of what a client commands, or why it can't be read. Over comes exactly
/// where a line is past a limit, and tells of the first such line: of more lines than the limit, of more bytes of a
/// line (before its line feed), of more clients, or of more nodes that the asks of the lines up to it bar, looked at in
/// this order. Each command is proper for the graph.
pub fn read_lines(
    alloc: Global,
    graph: &Graph,
    form: Form,
    bytes: &[u8],
    limits: &Limits,
) -> Result<Input, InputFault>
    requires lines { limits.now.lines < 2 ^ 32 }
    requires clients { limits.now.clients < 2 ^ 32 }
    ensures clients { IfOk result (λ input. input.clients ≡ clients_of bytes.now) }
    ensures lines { IfOk result (λ input. input.lines ≡ numbered_lines graph.now form bytes.now) }
    ensures proper { IfOk result
        (λ input. AllByRecursion (λ l. IsProper graph.now.resources.vertices l.command) input.lines) }
    ensures within { IsOk result → over_in limits.now graph.now form bytes.now ≡ None }
    ensures over { IfErr result (λ fault. (fault ≡ InputFault.Memory) ⊎ ((over : Over)
        × (fault ≡ InputFault.Over over) × (over_in limits.now graph.now form bytes.now ≡ Some over))) }
{
    let mut table = TextTable::new(alloc);
    let mut room = Room::new(alloc);
    let mut lines = Vec::new(alloc);
    let mut bars = 0;
    let mut rest = bytes;
    'lines: while !rest.is_empty() {
        let (raw, more) = cut_line(rest);
        let at = lines.len() as u64 + 1;
        let line = match read_line(alloc, graph, form, limits, at, raw, &mut table, &mut room) {
            Ok(line) => line,
            Err(fault) => return Err(fault),
        };
        bars = match with_bars(limits, at, bars, &line.command) {
            Ok(sum) => sum,
            Err(over) => return Err(InputFault::Over(over)),
        };
        push(&mut lines, line)?;
        rest = more;
    }
    Ok(Input {
        clients: names_of(alloc, &table)?,
        lines: List::of_vec(lines),
    })
}
