//! Limits on an input.
ghost use Rattle.std.specs.Prelude.{◌<◌, ◌^◌};

use crate::graphs::graph_in;
use crate::words::{first_index, first_number, with_number, word};
use flux_defs::Limits;
use flux_io::Files;
use fluxion_lines::{Form, InputFault, Over, read_lines};
use resource_graph::Graph;
use std::alloc::{AllocError, Global};
use std::io;

/// So many lines, of so many bytes each, from two clients, and one barred node.
fn limits(lines: u32, line_bytes: u64) -> Limits
    ensures lines { result.lines < 2 ^ 32 }
    ensures clients { result.clients < 2 ^ 32 }
{
    Limits {
        lines: u64::from(lines),
        line_bytes,
        clients: 2,
        barred: 1,
        claims: 5,
    }
}

/// A limit and the line that passes it.
fn over(alloc: Global, over: Over) -> Result<Vec<u8>, AllocError> {
    match over {
        Over::Lines { line } => with_number(alloc, b"lines", line),
        Over::LineBytes { line } => with_number(alloc, b"bytes", line),
        Over::Clients { line } => with_number(alloc, b"clients", line),
        Over::Barred { line } => with_number(alloc, b"barred", line),
    }
}

/// The limit that lines pass over a graph.
fn passed_over(
    alloc: Global,
    graph: &Graph,
    limits: &Limits,
    bytes: &[u8],
) -> Result<Vec<u8>, AllocError>
    requires lines { limits.now.lines < 2 ^ 32 }
    requires clients { limits.now.clients < 2 ^ 32 }
{
    match read_lines(alloc, graph, Form::Rfc14, bytes, limits) {
        Ok(_) => word(alloc, b"none"),
        Err(InputFault::Over(found)) => over(alloc, found),
        Err(InputFault::Memory) => Err(AllocError),
    }
}

/// The limit that an input passes, behind the most lines and the most bytes of a line.
pub(crate) fn passed<F: Files>(alloc: Global, files: &mut F, text: &[u8]) -> io::Result<Vec<u8>> {
    let graph = graph_in(alloc, files, b"two_nodes")?;
    let Some((lines, rest)) = first_index(text) else {
        return Ok(word(alloc, b"no number")?);
    };
    let Some((bytes, input)) = first_number(rest) else {
        return Ok(word(alloc, b"no number")?);
    };
    Ok(passed_over(alloc, &graph, &limits(lines, bytes), input)?)
}
