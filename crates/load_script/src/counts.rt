//! The counts of a history.
ghost use Rattle.std.specs.Prelude.{◌≡◌, ◌<◌, ◌≤◌, ◌+◌, ◌^◌, ◌++◌, Some, length, slice_get, codes, decimal, IfOk, OnOk};
ghost use Rattle.std.specs.Str.{bytes_eq};
ghost use Rattle.flux_defs.specs.declared.journal.Command.{Command};
ghost use Rattle.flux_defs.specs.declared.journal.Entry.{Entry};
ghost use Rattle.flux_defs.specs.Scheduler.{State, after};
ghost use Rattle.load_script.specs.Counts.{reply_word, replies_called, end_of, count_line, reply_line, accepting_lines};
ghost use Rattle.load_script.specs.Counts.{refusing_lines, other_lines, state_lines, counts_text};
ghost use Rattle.load_script.specs.Tallied.{AreOf, held_by};

use flux_defs::{Entry, Reply, Steps, Text};
use snapshot_store::Pages;
use std::alloc::{AllocError, Global};
use std::marker::Brand;
use std::sync::ledger::{Blank, Ledger};
use text_forms::{push_bytes, push_decimal};

/// How far a history has led: how many claims the accepted jobs had, and the present moment.
#[derive(Clone, Copy)]
pub(crate) struct Reached {
    claims: u64,
    second: u64,
}

/// The word under which a reply is counted.
fn reply_word(reply: &Reply) -> &'static [u8]
    ensures { result.now ≡ reply_word reply.now }
{
    match reply {
        Reply::Allocated(_) => b"allocated",
        Reply::Reserved(_) => b"reserved",
        Reply::Busy => b"busy",
        Reply::NoStart => b"nostart",
        Reply::Unsatisfiable => b"unsatisfiable",
        Reply::TooLong => b"toolong",
        Reply::Exists => b"exists",
        Reply::Absent => b"absent",
        Reply::Cancelled => b"cancelled",
        Reply::Full => b"full",
        Reply::Now { .. } => b"advanced",
        _ => b"",
    }
}

/// Whether the reply at a place is counted under this word.
fn is_called<L: Ledger>(history: &Pages<Entry>, at: u64, word: &[u8], steps: &mut Steps<L>) -> bool
    requires { at < length history.now }
    ensures { (e : Entry) × (slice_get history.now at ≡ Some e) × (result ≡ bytes_eq (reply_word e.reply) word.now) }
{
    match history.get(at, steps) {
        None => unreachable!(),
        Some(entry) => reply_word(&entry.reply) == word,
    }
}

/// How many replies are counted under this word.
fn replies_called<L: Ledger>(history: &Pages<Entry>, word: &[u8], steps: &mut Steps<L>) -> u64
    ensures { result ≡ replies_called word.now history.now }
{
    let mut count = 0;
    for at in 0..history.len() {
        if is_called(history, at, word, steps) {
            count += 1;
        }
    }
    count
}

/// How far one more reply leads.
fn next_reached(reached: Reached, reply: &Reply) -> Reached
    requires { reached.claims + held_by reply.now < 2 ^ 64 }
    ensures { (s : State) (c : Command) → AreOf s reached → AreOf (after s c reply.now) result }
{
    match reply {
        Reply::Allocated(job) => Reached {
            claims: reached.claims + job.claims.len() as u64,
            second: reached.second,
        },
        Reply::Reserved(job) => Reached {
            claims: reached.claims + job.claims.len() as u64,
            second: reached.second,
        },
        Reply::Now { at } => Reached {
            claims: reached.claims,
            second: *at,
        },
        _ => reached,
    }
}

/// How far the entry at a place leads.
fn reached_at<L: Ledger>(
    history: &Pages<Entry>,
    at: u64,
    reached: Reached,
    steps: &mut Steps<L>,
) -> Reached
    requires within { at < length history.now }
    requires room { (e : Entry) → slice_get history.now at ≡ Some e → reached.claims + held_by e.reply < 2 ^ 64 }
    ensures { (e : Entry) × (slice_get history.now at ≡ Some e)
        × ((s : State) → AreOf s reached → AreOf (after s e.command e.reply) result) }
{
    match history.get(at, steps) {
        None => unreachable!(),
        Some(entry) => next_reached(reached, &entry.reply),
    }
}

/// How far a history leads.
fn reached_by<L: Ledger>(history: &Pages<Entry>, steps: &mut Steps<L>) -> Reached
    requires few { (end_of history.now).claim_count < 2 ^ 64 }
    ensures { AreOf (end_of history.now) result }
{
    let mut reached = Reached {
        claims: 0,
        second: 0,
    };
    for at in 0..history.len() {
        reached = reached_at(history, at, reached, steps);
    }
    reached
}

/// Adds a name and a number, in a line.
fn add_line(text: &mut Vec<u8>, name: &[u8], number: u64) -> Result<(), AllocError>
    ensures { OnOk result (text.new.items ≡ text.old.items ++ count_line name.now number) }
{
    push_bytes(text, name)?;
    push_bytes(text, b" ")?;
    push_decimal(text, number)?;
    push_bytes(text, b"\n")?;
    Ok(())
}

/// Adds how often the replies came that are counted under this word.
fn add_replies<L: Ledger>(
    text: &mut Vec<u8>,
    history: &Pages<Entry>,
    word: &[u8],
    steps: &mut Steps<L>,
) -> Result<(), AllocError>
    ensures { OnOk result (text.new.items ≡ text.old.items ++ reply_line history.now word.now) }
{
    let count = replies_called(history, word, steps);
    add_line(text, word, count)
}

fn add_accepting<L: Ledger>(
    text: &mut Vec<u8>,
    history: &Pages<Entry>,
    steps: &mut Steps<L>,
) -> Result<(), AllocError>
    ensures { OnOk result (text.new.items ≡ text.old.items ++ accepting_lines history.now) }
{
    add_replies(text, history, b"allocated", steps)?;
    add_replies(text, history, b"reserved", steps)
}

fn add_refusing<L: Ledger>(
    text: &mut Vec<u8>,
    history: &Pages<Entry>,
    steps: &mut Steps<L>,
) -> Result<(), AllocError>
    ensures { OnOk result (text.new.items ≡ text.old.items ++ refusing_lines history.now) }
{
    add_replies(text, history, b"busy", steps)?;
    add_replies(text, history, b"nostart", steps)?;
    add_replies(text, history, b"unsatisfiable", steps)?;
    add_replies(text, history, b"toolong", steps)?;
    add_replies(text, history, b"exists", steps)
}

fn add_others<L: Ledger>(
    text: &mut Vec<u8>,
    history: &Pages<Entry>,
    steps: &mut Steps<L>,
) -> Result<(), AllocError>
    ensures { OnOk result (text.new.items ≡ text.old.items ++ other_lines history.now) }
{
    add_replies(text, history, b"absent", steps)?;
    add_replies(text, history, b"cancelled", steps)?;
    add_replies(text, history, b"full", steps)?;
    add_replies(text, history, b"advanced", steps)
}

fn add_state<L: Ledger>(
    text: &mut Vec<u8>,
    history: &Pages<Entry>,
    steps: &mut Steps<L>,
) -> Result<(), AllocError>
    requires few { (end_of history.now).claim_count < 2 ^ 64 }
    ensures { OnOk result (text.new.items ≡ text.old.items ++ state_lines (end_of history.now)) }
{
    let reached = reached_by(history, steps);
    add_line(text, b"claims", reached.claims)?;
    add_line(text, b"now", reached.second)
}

fn counts_text_counted<L: Ledger>(
    alloc: Global,
    history: &Pages<Entry>,
    blank: Blank,
) -> Result<Text, AllocError>
    requires name { blank.name ≡ L.name }
    requires parts { blank.parts ≡ L.parts }
    requires some { 0 < blank.parts }
    requires few { (end_of history.now).claim_count < 2 ^ 64 }
    ensures { IfOk result (λ text. text ≡ counts_text history.now) }
{
    let mut steps: Steps<L> = Steps::new(blank);
    let mut text = Vec::new(alloc);
    add_line(&mut text, b"commands", history.len())?;
    add_accepting(&mut text, history, &mut steps)?;
    add_refusing(&mut text, history, &mut steps)?;
    add_others(&mut text, history, &mut steps)?;
    add_state(&mut text, history, &mut steps)?;
    Ok(Text::of_vec(text))
}

/// The fourteen lines of the counts of a history: how many commands were answered, how often each reply came, how many
/// claims all accepted jobs had, and the present moment.
pub fn counts_text(alloc: Global, history: &Pages<Entry>) -> Result<Text, AllocError>
    requires few { (end_of history.now).claim_count < 2 ^ 64 }
    ensures { IfOk result (λ text. text ≡ counts_text history.now) }
{
    counts_text_counted::<Brand>(alloc, history, Blank::new(1))
}
