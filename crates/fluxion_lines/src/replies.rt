//! The lines that answer.
ghost use Rattle.std.specs.Prelude.{◌≡◌, ◌<◌, ◌++◌, Some, length, slice_get, decimal, IfOk, OnOk, codes};
ghost use Rattle.flux_defs.specs.declared.journal.Entry.{Entry};
ghost use Rattle.fluxion_lines.specs.Texts.{job_text, phase_text, why_of, reply_text, line_text, name_of, history_text};

use flux_defs::{Command, Entry, Job, List, Phase, Reply, Steps, Text};
use resource_graph::Graph;
use resource_set_r::write_r;
use snapshot_store::Pages;
use std::alloc::{AllocError, Global};
use std::marker::Brand;
use std::sync::ledger::{Blank, Ledger};
use text_forms::{push_bytes, push_decimal};

/// Adds an accepted job, after the word for it.
fn add_job(
    alloc: Global,
    text: &mut Vec<u8>,
    graph: &Graph,
    word: &[u8],
    job: &Job,
) -> Result<(), AllocError>
    ensures { OnOk result (text.new.items ≡ text.old.items ++ job_text graph.now word.now job.now) }
{
    let r = write_r(alloc, graph, job)?;
    push_bytes(text, word)?;
    push_decimal(text, job.id)?;
    push_bytes(text, b" ")?;
    push_decimal(text, job.start)?;
    push_bytes(text, b" ")?;
    push_bytes(text, r.bytes())
}

/// The word for a phase.
fn phase_word(phase: Phase) -> &'static [u8]
    ensures { result.now ≡ phase_text phase }
{
    match phase {
        Phase::Planned => b"info planned ",
        Phase::Running => b"info running ",
        Phase::Ended => b"info ended ",
    }
}

/// Adds a job's phase and its seconds.
pub(crate) fn add_info(
    text: &mut Vec<u8>,
    phase: Phase,
    start: u64,
    end: u64,
) -> Result<(), AllocError>
    ensures { OnOk result
        (text.new.items ≡ text.old.items ++ (phase_text phase ++ decimal start ++ codes " " ++ decimal end)) }
{
    push_bytes(text, phase_word(phase))?;
    push_decimal(text, start)?;
    push_bytes(text, b" ")?;
    push_decimal(text, end)
}

/// Adds why a line can't be read.
pub(crate) fn add_why(text: &mut Vec<u8>, command: &Command) -> Result<(), AllocError>
    ensures { OnOk result (text.new.items ≡ text.old.items ++ (codes "invalid " ++ why_of command.now)) }
{
    push_bytes(text, b"invalid ")?;
    match command {
        Command::Invalid { why } => push_bytes(text, why.bytes()),
        _ => Ok(()),
    }
}

/// Adds the reply to a command.
fn add_reply(
    alloc: Global,
    text: &mut Vec<u8>,
    graph: &Graph,
    command: &Command,
    reply: &Reply,
) -> Result<(), AllocError>
    ensures { OnOk result (text.new.items ≡ text.old.items ++ reply_text graph.now command.now reply.now) }
{
    match reply {
        Reply::Allocated(job) => add_job(alloc, text, graph, b"allocated ", job),
        Reply::Reserved(job) => add_job(alloc, text, graph, b"reserved ", job),
        Reply::Busy => push_bytes(text, b"busy"),
        Reply::NoStart => push_bytes(text, b"nostart"),
        Reply::Unsatisfiable => push_bytes(text, b"unsatisfiable"),
        Reply::Satisfiable => push_bytes(text, b"satisfiable"),
        Reply::TooLong => push_bytes(text, b"toolong"),
        Reply::Exists => push_bytes(text, b"exists"),
        Reply::Absent => push_bytes(text, b"absent"),
        Reply::Cancelled => push_bytes(text, b"cancelled"),
        Reply::Full => push_bytes(text, b"full"),
        Reply::Info { phase, start, end } => add_info(text, *phase, *start, *end),
        Reply::Now { at } => {
            push_bytes(text, b"now ")?;
            push_decimal(text, *at)
        }
        Reply::Backwards => push_bytes(text, b"backwards"),
        Reply::Beyond => push_bytes(text, b"beyond"),
        Reply::Invalid => add_why(text, command),
    }
}

/// Adds the line of an entry at its position.
fn add_line(
    alloc: Global,
    text: &mut Vec<u8>,
    graph: &Graph,
    at: u64,
    entry: &Entry,
    client: &[u8],
) -> Result<(), AllocError>
    ensures { OnOk result (text.new.items ≡ text.old.items ++ line_text graph.now at entry.now client.now) }
{
    push_decimal(text, at)?;
    push_bytes(text, b" ")?;
    push_decimal(text, u64::from(entry.line))?;
    push_bytes(text, b" ")?;
    push_bytes(text, client)?;
    push_bytes(text, b" ")?;
    add_reply(alloc, text, graph, &entry.command, &entry.reply)?;
    push_bytes(text, b"\n")?;
    Ok(())
}

/// The output line of an entry at a position of the journal, from 0, with its line feed.
pub fn line_text(
    alloc: Global,
    graph: &Graph,
    at: u64,
    entry: &Entry,
    client: &Text,
) -> Result<Text, AllocError>
    ensures { IfOk result (λ text. text ≡ line_text graph.now at entry.now client.now) }
{
    let mut text = Vec::new(alloc);
    add_line(alloc, &mut text, graph, at, entry, client.bytes())?;
    Ok(Text::of_vec(text))
}

/// The name of a client, empty past the last.
fn name_of(clients: &List<Text>, number: u32) -> &[u8]
    ensures { result.now ≡ name_of clients.now number }
{
    match clients.get(number as usize) {
        Some(name) => name.bytes(),
        None => &[],
    }
}

/// The output lines of a whole journal, one after another.
pub fn history_text(
    alloc: Global,
    graph: &Graph,
    clients: &List<Text>,
    history: &Pages<Entry>,
) -> Result<Text, AllocError>
    ensures { IfOk result (λ text. text ≡ history_text graph.now clients.now history.now) }
{
    history_text_counted::<Brand>(alloc, graph, clients, history, Blank::new(1))
}

fn history_text_counted<L: Ledger>(
    alloc: Global,
    graph: &Graph,
    clients: &List<Text>,
    history: &Pages<Entry>,
    blank: Blank,
) -> Result<Text, AllocError>
    requires name { blank.name ≡ L.name }
    requires parts { blank.parts ≡ L.parts }
    requires some { 0 < blank.parts }
    ensures { IfOk result (λ text. text ≡ history_text graph.now clients.now history.now) }
{
    let mut steps: Steps<L> = Steps::new(blank);
    let mut text = Vec::new(alloc);
    for at in 0..history.len() {
        add_entry(alloc, &mut text, graph, clients, history, at, &mut steps)?;
    }
    Ok(Text::of_vec(text))
}

/// Adds the line of the entry at a place of the journal.
fn add_entry<L: Ledger>(
    alloc: Global,
    text: &mut Vec<u8>,
    graph: &Graph,
    clients: &List<Text>,
    history: &Pages<Entry>,
    at: u64,
    steps: &mut Steps<L>,
) -> Result<(), AllocError>
    requires { at < length history.now }
    ensures { OnOk result ((e : Entry) × (slice_get history.now at ≡ Some e)
        × (text.new.items ≡ text.old.items ++ line_text graph.now at e (name_of clients.now e.client))) }
{
    match history.get(at, steps) {
        None => unreachable!(),
        Some(entry) => add_line(
            alloc,
            text,
            graph,
            at,
            entry,
            name_of(clients, entry.client),
        ),
    }
}
