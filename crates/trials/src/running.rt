//! The program, run over objects in memory of which a call may fail.
use flux_defs::{List, OpenGate, Text};
use flux_io::{MemFiles, MemSink, MemSource};
use fluxion_shell::{Status, code, fault_line, run};
use small_graphs::TWO_NODES;
use std::alloc::{AllocError, Global};
use std::sync::Wait;
use std::thread::Threads;

/// What a run is given: a command over the file `g`, how many bytes of the graph of two nodes that file has, the input,
/// how many bytes of it are read and how many are written at once, and for how many the output has room. Which calls
/// fail, of the files, of the input and of the output: they are numbered from 1.
#[derive(Clone, Copy)]
pub(crate) struct Given<'a> {
    pub(crate) command: &'a str,
    pub(crate) graph: usize,
    pub(crate) input: &'a [u8],
    pub(crate) read: usize,
    pub(crate) written: usize,
    pub(crate) room: usize,
    pub(crate) fails: [u64; 3],
}

/// How a run ended: its status, the line that tells of its fault, and what it wrote.
#[derive(Drop)]
pub(crate) struct Ended {
    pub(crate) status: u8,
    pub(crate) fault: Text,
    pub(crate) output: Text,
}

/// The words of a command over the file `g`.
fn words(alloc: Global, command: &str) -> Result<List<Text>, AllocError> {
    let command = Text::of(alloc, command.as_bytes())?;
    let graph = Text::of(alloc, b"g")?;
    Ok(List::of_vec(Vec::from_array(alloc, [command, graph])?))
}

/// The file `g`, with so many bytes of the graph of two nodes, of which a read fails.
fn files(alloc: Global, most: usize, fails: u64) -> Result<MemFiles, AllocError> {
    let name = Text::of(alloc, b"g")?;
    let bytes = Text::of(alloc, TWO_NODES.as_bytes().get(..most).unwrap_or(b""))?;
    let files = Vec::from_array(alloc, [(name, bytes)])?;
    let fails = Vec::from_array(alloc, [fails])?;
    Ok(MemFiles::new(List::of_vec(files), List::of_vec(fails)))
}

/// An input of which a read fails.
fn source(alloc: Global, bytes: &[u8], piece: usize, fails: u64) -> Result<MemSource, AllocError> {
    let bytes = Text::of(alloc, bytes)?;
    let fails = Vec::from_array(alloc, [fails])?;
    Ok(MemSource::new(bytes, piece.max(1), List::of_vec(fails)))
}

/// An output with room for so many bytes, of which a write fails.
fn sink(alloc: Global, room: usize, piece: usize, fails: u64) -> Result<MemSink, AllocError> {
    let fails = Vec::from_array(alloc, [fails])?;
    let mut out = MemSink::new(alloc, piece.max(1), List::of_vec(fails));
    out.reserve(room)?;
    Ok(out)
}

/// How a run ends.
fn status_of<R: Threads + Wait + Sync>(
    rt: &R,
    alloc: Global,
    words: &List<Text>,
    files: &mut MemFiles,
    input: &mut MemSource,
    out: &mut MemSink,
) -> Status {
    run(rt, alloc, words, files, input, out, &OpenGate)
}

/// Runs the program.
pub(crate) fn end_of<R: Threads + Wait + Sync>(
    rt: &R,
    alloc: Global,
    given: &Given,
) -> Result<Ended, AllocError> {
    let [files_fail, input_fails, out_fails] = given.fails;
    let words = words(alloc, given.command)?;
    let mut files = files(alloc, given.graph, files_fail)?;
    let mut input = source(alloc, given.input, given.read, input_fails)?;
    let mut out = sink(alloc, given.room, given.written, out_fails)?;
    let status = status_of(rt, alloc, &words, &mut files, &mut input, &mut out);
    Ok(Ended {
        status: code(&status),
        fault: fault_line(alloc, &status)?,
        output: Text::of(alloc, out.bytes())?,
    })
}
