//! What a line commands.
ghost use Rattle.std.specs.Prelude.{◌≡◌, ◌||◌, List, Ok, Err, IfOk, IfErr, codes};
ghost use Rattle.std.specs.List.{list_all};
ghost use Rattle.std.specs.Char.{is_ascii_digit, is_ascii_lowercase};
ghost use Rattle.flux_defs.specs.declared.vertices.Vertex.{Vertex};
ghost use Rattle.flux_defs.specs.declared.journal.Command.TheVariants as command;
ghost use Rattle.flux_defs.specs.Needs.{IsProperAsk};
ghost use Rattle.flux_defs.specs.Scheduler.{IsProper};
ghost use Rattle.jobspec_v1.specs.Faults.{IsFirstFault};
ghost use Rattle.fluxion_lines.specs.Commands.{is_client, client_of, verb_of, invalid, spec_of, asked, job_and_ask};
ghost use Rattle.fluxion_lines.specs.Commands.{ask_alone, number_alone, made, command_by, command_of, bars_of_command};

use crate::reasons::spec_reason;
use crate::words::{first_word, skipped};
use flux_defs::{Ask, Command, Text};
use jobspec_canon::read_canon_in;
use jobspec_v1::{SpecFault, read_v1_in};
use json_whole::Room;
use resource_graph::Graph;
use std::alloc::{AllocError, Global};
use text_forms::number_in;

/// How jobspecs are written: as RFC 25 says, or in the canonical form of RFC 14.
#[derive(Clone, Copy, Debug, PartialEq, Eq)]
pub enum Form {
    V1,
    Rfc14,
}

/// The second word of a line.
#[derive(Clone, Copy, PartialEq, Eq)]
pub(crate) enum Verb {
    Allocate,
    Reserve,
    Satisfy,
    Cancel,
    Info,
    Advance,
}

fn is_client_byte(byte: u8) -> bool
    ensures { result ≡ (is_ascii_lowercase byte || is_ascii_digit byte) }
{
    byte.is_ascii_lowercase() || byte.is_ascii_digit()
}

fn are_client_bytes(word: &[u8]) -> bool
    ensures { result ≡ list_all (λ b. is_ascii_lowercase b || is_ascii_digit b) word.now }
{
    word.iter().all(|byte| is_client_byte(*byte))
}

fn is_client(word: &[u8]) -> bool
    ensures { result ≡ is_client word.now }
{
    if word.is_empty() || word.len() > 16 {
        return false;
    }
    are_client_bytes(word)
}

/// The client that a line belongs to.
pub(crate) fn client_of(line: &[u8]) -> &[u8]
    ensures { result.now ≡ client_of line.now }
{
    let (word, _) = first_word(line);
    if is_client(word) {
        return word;
    }
    b"-"
}

/// The verb that a word is.
fn verb_of(word: &[u8]) -> Option<Verb>
    ensures { result ≡ verb_of word.now }
{
    if word == b"allocate".as_slice() {
        return Some(Verb::Allocate);
    }
    if word == b"reserve".as_slice() {
        return Some(Verb::Reserve);
    }
    if word == b"satisfy".as_slice() {
        return Some(Verb::Satisfy);
    }
    if word == b"cancel".as_slice() {
        return Some(Verb::Cancel);
    }
    if word == b"info".as_slice() {
        return Some(Verb::Info);
    }
    if word == b"advance".as_slice() {
        return Some(Verb::Advance);
    }
    None
}

/// A line that can't be read, and why.
fn invalid(alloc: Global, why: &[u8]) -> Result<Command, AllocError>
    ensures { IfOk result (λ c. c ≡ invalid why.now) }
{
    Ok(Command::Invalid {
        why: Text::of(alloc, why)?,
    })
}

/// The ask of a jobspec in its form, or its first fault.
fn read_spec<'b>(
    alloc: Global,
    graph: &Graph,
    form: Form,
    spec: &'b [u8],
    room: &mut Room<'b>,
) -> Result<Ask, SpecFault>
    ensures ask { IfOk result (λ ask. spec_of graph.now form spec.now ≡ Ok ask) }
    ensures proper { IfOk result (IsProperAsk graph.now.resources.vertices) }
    ensures told { IfErr result (IsFirstFault (spec_of graph.now form spec.now)) }
{
    match form {
        Form::V1 => read_v1_in(alloc, graph, spec, room),
        Form::Rfc14 => read_canon_in(alloc, graph, spec, room),
    }
}

/// The ask of a jobspec, or why it has none.
fn asked<'b>(
    alloc: Global,
    graph: &Graph,
    form: Form,
    spec: &'b [u8],
    room: &mut Room<'b>,
) -> Result<Result<Ask, Text>, AllocError>
    ensures read { IfOk result (λ read. read ≡ asked graph.now form spec.now) }
    ensures proper { IfOk result (λ read. IfOk read (IsProperAsk graph.now.resources.vertices)) }
{
    match read_spec(alloc, graph, form, spec, room) {
        Ok(ask) => Ok(Ok(ask)),
        Err(SpecFault::Memory) => Err(AllocError),
        Err(fault) => Ok(Err(spec_reason(alloc, &fault)?)),
    }
}

/// A reason without an ask or a number.
fn refused<T>(alloc: Global, why: &[u8]) -> Result<Result<T, Text>, AllocError>
    ensures { IfOk result (λ read. read ≡ Err why.now) }
{
    Ok(Err(Text::of(alloc, why)?))
}

/// A job and the ask of its jobspec, or why there is none.
fn job_and_ask<'b>(
    alloc: Global,
    graph: &Graph,
    form: Form,
    words: &'b [u8],
    room: &mut Room<'b>,
) -> Result<Result<(u64, Ask), Text>, AllocError>
    ensures read { IfOk result (λ read. read ≡ job_and_ask graph.now form words.now) }
    ensures proper { IfOk result (λ read. IfOk read (λ p. IsProperAsk graph.now.resources.vertices p.1)) }
{
    let (word, rest) = first_word(words);
    let spec = skipped(rest);
    if word.is_empty() || spec.is_empty() {
        return refused(alloc, b"words");
    }
    let Some(job) = number_in(word) else {
        return refused(alloc, b"job");
    };
    match asked(alloc, graph, form, spec, room)? {
        Ok(ask) => Ok(Ok((job, ask))),
        Err(why) => Ok(Err(why)),
    }
}

/// The ask of the one jobspec, or why there is none.
fn ask_alone<'b>(
    alloc: Global,
    graph: &Graph,
    form: Form,
    words: &'b [u8],
    room: &mut Room<'b>,
) -> Result<Result<Ask, Text>, AllocError>
    ensures read { IfOk result (λ read. read ≡ ask_alone graph.now form words.now) }
    ensures proper { IfOk result (λ read. IfOk read (IsProperAsk graph.now.resources.vertices)) }
{
    let spec = skipped(words);
    if spec.is_empty() {
        return refused(alloc, b"words");
    }
    asked(alloc, graph, form, spec, room)
}

/// The one number, or why there is none.
fn number_alone(alloc: Global, fault: &[u8], words: &[u8]) -> Result<Result<u64, Text>, AllocError>
    ensures { IfOk result (λ read. read ≡ number_alone fault.now words.now) }
{
    let (word, rest) = first_word(words);
    if word.is_empty() || !skipped(rest).is_empty() {
        return refused(alloc, b"words");
    }
    match number_in(word) {
        Some(number) => Ok(Ok(number)),
        None => refused(alloc, fault),
    }
}

fn allocate<'b>(
    alloc: Global,
    graph: &Graph,
    form: Form,
    words: &'b [u8],
    room: &mut Room<'b>,
) -> Result<Command, AllocError>
    ensures command { IfOk result (λ c. c ≡ command_by graph.now form Verb.Allocate words.now) }
    ensures proper { IfOk result (IsProper graph.now.resources.vertices) }
{
    match job_and_ask(alloc, graph, form, words, room)? {
        Ok((job, ask)) => Ok(Command::Allocate { job, ask }),
        Err(why) => Ok(Command::Invalid { why }),
    }
}

fn reserve<'b>(
    alloc: Global,
    graph: &Graph,
    form: Form,
    words: &'b [u8],
    room: &mut Room<'b>,
) -> Result<Command, AllocError>
    ensures command { IfOk result (λ c. c ≡ command_by graph.now form Verb.Reserve words.now) }
    ensures proper { IfOk result (IsProper graph.now.resources.vertices) }
{
    match job_and_ask(alloc, graph, form, words, room)? {
        Ok((job, ask)) => Ok(Command::Reserve { job, ask }),
        Err(why) => Ok(Command::Invalid { why }),
    }
}

fn satisfy<'b>(
    alloc: Global,
    graph: &Graph,
    form: Form,
    words: &'b [u8],
    room: &mut Room<'b>,
) -> Result<Command, AllocError>
    ensures command { IfOk result (λ c. c ≡ command_by graph.now form Verb.Satisfy words.now) }
    ensures proper { IfOk result (IsProper graph.now.resources.vertices) }
{
    match ask_alone(alloc, graph, form, words, room)? {
        Ok(ask) => Ok(Command::Satisfy { ask }),
        Err(why) => Ok(Command::Invalid { why }),
    }
}

fn cancel(alloc: Global, words: &[u8]) -> Result<Command, AllocError>
    ensures command { IfOk result (λ c. c ≡ made command.Cancel (number_alone (codes "job") words.now)) }
    ensures proper { IfOk result (λ c. (vertices : List Vertex) → IsProper vertices c) }
{
    match number_alone(alloc, b"job", words)? {
        Ok(job) => Ok(Command::Cancel { job }),
        Err(why) => Ok(Command::Invalid { why }),
    }
}

fn info(alloc: Global, words: &[u8]) -> Result<Command, AllocError>
    ensures command { IfOk result (λ c. c ≡ made command.Info (number_alone (codes "job") words.now)) }
    ensures proper { IfOk result (λ c. (vertices : List Vertex) → IsProper vertices c) }
{
    match number_alone(alloc, b"job", words)? {
        Ok(job) => Ok(Command::Info { job }),
        Err(why) => Ok(Command::Invalid { why }),
    }
}

fn advance(alloc: Global, words: &[u8]) -> Result<Command, AllocError>
    ensures command { IfOk result (λ c. c ≡ made command.Advance (number_alone (codes "time") words.now)) }
    ensures proper { IfOk result (λ c. (vertices : List Vertex) → IsProper vertices c) }
{
    match number_alone(alloc, b"time", words)? {
        Ok(to) => Ok(Command::Advance { to }),
        Err(why) => Ok(Command::Invalid { why }),
    }
}

/// What the words behind a verb command.
fn command_by<'b>(
    alloc: Global,
    graph: &Graph,
    form: Form,
    verb: Verb,
    words: &'b [u8],
    room: &mut Room<'b>,
) -> Result<Command, AllocError>
    ensures command { IfOk result (λ c. c ≡ command_by graph.now form verb words.now) }
    ensures proper { IfOk result (IsProper graph.now.resources.vertices) }
{
    match verb {
        Verb::Allocate => allocate(alloc, graph, form, words, room),
        Verb::Reserve => reserve(alloc, graph, form, words, room),
        Verb::Satisfy => satisfy(alloc, graph, form, words, room),
        Verb::Cancel => cancel(alloc, words),
        Verb::Info => info(alloc, words),
        Verb::Advance => advance(alloc, words),
    }
}

/// What a line commands: the client's name, a verb, and the verb's words, each behind one space or more. Its jobspec is
/// read by way of the room.
pub(crate) fn command_of<'b>(
    alloc: Global,
    graph: &Graph,
    form: Form,
    line: &'b [u8],
    room: &mut Room<'b>,
) -> Result<Command, AllocError>
    ensures command { IfOk result (λ c. c ≡ command_of graph.now form line.now) }
    ensures proper { IfOk result (IsProper graph.now.resources.vertices) }
{
    let (client, rest) = first_word(line);
    if !is_client(client) {
        return invalid(alloc, b"client");
    }
    let (word, words) = first_word(rest);
    match verb_of(word) {
        Some(verb) => command_by(alloc, graph, form, verb, words, room),
        None => invalid(alloc, b"command"),
    }
}

/// How many nodes the ask of a command bars; a command without an ask bars none.
pub(crate) fn bars_of_command(command: &Command) -> usize
    ensures { result ≡ bars_of_command command.now }
{
    match command {
        Command::Allocate { ask, .. } | Command::Reserve { ask, .. } => ask.barred.len(),
        Command::Satisfy { ask } => ask.barred.len(),
        _ => 0,
    }
}
