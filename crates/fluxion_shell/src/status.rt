//! How a run ends.
ghost use Rattle.std.specs.Prelude.{◌≡◌, IfOk};
ghost use Rattle.fluxion_shell.specs.Ends.{code_of, line_of};

use crate::fault_texts::add_fault;
use flux_defs::Text;
use graph_json::ReadFault;
use std::alloc::{AllocError, Global};
use text_forms::{push_bytes, push_decimal};

/// How a run ends.
#[derive(Debug, Drop)]
pub enum Status {
    /// Every line is answered.
    Ok,
    /// The words are none of the forms.
    Usage,
    /// The graph file's bytes are no graph.
    Graph(ReadFault),
    /// The files or the input failed.
    Read,
    /// The output failed.
    Write,
    /// No memory was left.
    Memory,
    /// More than the program takes.
    Limit(Limited),
    /// There is no such graph file.
    NoGraphFile,
}

/// Which limit was passed, and the number that was found past it: of bytes, one more than the limit; else the number of
/// the line, from 1.
#[derive(Clone, Copy, Debug, PartialEq, Eq)]
pub struct Limited {
    pub which: Which,
    pub found: u64,
}

/// What is limited.
#[derive(Clone, Copy, Debug, PartialEq, Eq)]
pub enum Which {
    /// The bytes of the graph file.
    GraphBytes,
    /// The bytes of the input.
    InputBytes,
    /// The lines of the input.
    Lines,
    /// The bytes of one of its lines.
    LineBytes,
    /// Its clients.
    Clients,
    /// The nodes that the asks of its lines bar.
    Barred,
}

/// The number that the program ends with.
pub fn code(status: &Status) -> u8
    ensures { result ≡ code_of status.now }
{
    match status {
        Status::Ok => 0,
        Status::Usage => 2,
        Status::Graph(_) => 3,
        Status::Read => 4,
        Status::Write => 5,
        Status::Memory => 6,
        Status::Limit(_) => 7,
        Status::NoGraphFile => 8,
    }
}

/// The line that says why a run failed, with its line feed; empty for `Ok`.
pub fn fault_line(alloc: Global, status: &Status) -> Result<Text, AllocError>
    ensures { IfOk result (λ line. line ≡ line_of status.now) }
{
    let line: &[u8] = match status {
        Status::Ok => b"",
        Status::Usage =>
            b"usage: fluxion serve GRAPH [--horizon N] [--filters LIST] [--jobspec FORM] | fluxion graph GRAPH | fluxion load N\n",
        Status::Graph(fault) => return graph_line(alloc, fault),
        Status::Read => b"fluxion: read fault\n",
        Status::Write => b"fluxion: write fault\n",
        Status::Memory => b"fluxion: out of memory\n",
        Status::Limit(limited) => return limit_line(alloc, limited),
        Status::NoGraphFile => b"fluxion: no such file\n",
    };
    Text::of(alloc, line)
}

/// The line that says what is wrong with the graph file.
fn graph_line(alloc: Global, fault: &ReadFault) -> Result<Text, AllocError>
    ensures { IfOk result (λ line. line ≡ line_of (Status.Graph fault.now)) }
{
    let mut line = Vec::from_slice(alloc, b"fluxion: graph: ")?;
    add_fault(&mut line, fault)?;
    push_bytes(&mut line, b"\n")?;
    Ok(Text::of_vec(line))
}

/// The line that says which limit was passed.
fn limit_line(alloc: Global, limited: &Limited) -> Result<Text, AllocError>
    ensures { IfOk result (λ line. line ≡ line_of (Status.Limit limited.now)) }
{
    let mut line = Vec::from_slice(alloc, b"fluxion: limit: ")?;
    let word: &[u8] = match limited.which {
        Which::GraphBytes => b"graph-bytes ",
        Which::InputBytes => b"input-bytes ",
        Which::Lines => b"lines ",
        Which::LineBytes => b"line-bytes ",
        Which::Clients => b"clients ",
        Which::Barred => b"barred ",
    };
    push_bytes(&mut line, word)?;
    push_decimal(&mut line, limited.found)?;
    push_bytes(&mut line, b"\n")?;
    Ok(Text::of_vec(line))
}
