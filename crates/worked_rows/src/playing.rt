//! The calls of a row, made over real files, with input and output in memory.
use crate::reading::Row;
use flux_defs::{List, OpenGate, Text};
use flux_io::{Files, SureSink, SureSource};
use fluxion_shell::{code, fault_line, run};
use std::alloc::{AllocError, Global};
use std::sync::Wait;
use std::thread::Threads;

/// How many bytes are read or written at once.
const PIECE: usize = 1_000;

/// How many bytes a call may write beyond those that are wanted of it.
const ROOM: usize = 65_536;

/// What the calls of a row wrote, one after another, and how each ended.
#[derive(Drop)]
pub(crate) struct Played {
    pub(crate) output: Vec<u8>,
    pub(crate) faults: Vec<u8>,
    pub(crate) statuses: Vec<u8>,
}

/// The words of a call.
fn words_of(alloc: Global, call: &[u8]) -> Result<List<Text>, AllocError> {
    let mut words = Vec::new(alloc);
    for word in call.split(|byte| *byte == b' ') {
        words.push(Text::of(alloc, word)?)?;
    }
    Ok(List::of_vec(words))
}

/// Makes a call, and adds what comes of it.
fn play_call<R: Threads + Wait + Sync, F: Files>(
    rt: &R,
    alloc: Global,
    files: &mut F,
    row: &Row,
    call: &[u8],
    played: &mut Played,
) -> Result<(), AllocError> {
    let words = words_of(alloc, call)?;
    let mut input = SureSource::new(Text::of(alloc, row.input.as_slice())?, PIECE);
    let mut out = SureSink::new(alloc, PIECE);
    out.reserve(row.output.len().saturating_add(ROOM))?;
    let status = run(rt, alloc, &words, files, &mut input, &mut out, &OpenGate);
    played.output.extend_from_slice(out.bytes())?;
    played
        .faults
        .extend_from_slice(fault_line(alloc, &status)?.bytes())?;
    played.statuses.push(code(&status))?;
    Ok(())
}

/// Makes the calls of a row in their order.
pub(crate) fn play_row<R: Threads + Wait + Sync, F: Files>(
    rt: &R,
    alloc: Global,
    files: &mut F,
    row: &Row,
) -> Result<Played, AllocError> {
    let mut played = Played {
        output: Vec::new(alloc),
        faults: Vec::new(alloc),
        statuses: Vec::new(alloc),
    };
    for call in row
        .calls
        .as_slice()
        .trim_ascii_end()
        .split(|byte| *byte == b'\n')
    {
        play_call(rt, alloc, files, row, call, &mut played)?;
    }
    Ok(played)
}
