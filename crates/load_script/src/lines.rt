//! The input of a load.
ghost use Rattle.std.specs.Prelude.{◌≡◌, ◌<◌, ◌≤◌, ◌++◌, decimal, codes, IfOk, OnOk};
ghost use Rattle.load_script.specs.Lines.{command_text, load_text};
ghost use Rattle.load_script.specs.declared.lines.TheConstants.{MOST_COMMANDS};

use crate::draws::{next_drawn, seconds_on};
use crate::jobspecs::{memory_jobspec, nodes_jobspec, slots_jobspec};
use flux_defs::{Limits, SHIPPED, Text};
use std::alloc::{AllocError, Global};
use text_forms::{push_bytes, push_decimal};

/// The most commands of a load.
pub const MOST_COMMANDS: u64 = 20_000;

/// The limits that the input of a load is read with: the program's, but that any number of nodes may be barred. The
/// jobspecs of a load bar none.
pub const LOAD_LIMITS: Limits = Limits {
    lines: SHIPPED.lines,
    line_bytes: SHIPPED.line_bytes,
    clients: SHIPPED.clients,
    barred: u64::MAX,
    claims: SHIPPED.claims,
};

/// Adds a verb, the number of a job, and its jobspec.
fn add_ask(text: &mut Vec<u8>, verb: &[u8], job: u64, spec: &Text) -> Result<(), AllocError>
    ensures { OnOk result (text.new.items ≡ text.old.items ++ (verb.now ++ decimal job ++ codes " " ++ spec.now)) }
{
    push_bytes(text, verb)?;
    push_decimal(text, job)?;
    push_bytes(text, b" ")?;
    push_bytes(text, spec.bytes())
}

/// Adds a verb and a number.
fn add_number(text: &mut Vec<u8>, verb: &[u8], number: u64) -> Result<(), AllocError>
    ensures { OnOk result (text.new.items ≡ text.old.items ++ (verb.now ++ decimal number)) }
{
    push_bytes(text, verb)?;
    push_decimal(text, number)
}

/// Adds the words of command `k`, which leads to this second.
fn add_command(
    alloc: Global,
    text: &mut Vec<u8>,
    k: u64,
    row: u64,
    extent: u64,
    second: u64,
) -> Result<(), AllocError>
    requires some { 0 < k }
    requires small { extent < 4096 }
    ensures { OnOk result (text.new.items ≡ text.old.items ++ command_text k row extent second) }
{
    let seconds = 60 * (1 + extent / 64);
    if row < 4 {
        let spec = nodes_jobspec(alloc, 1 + extent % 4, 1 + extent / 4 % 16, seconds)?;
        return add_ask(text, b"reserve ", k, &spec);
    }
    if row == 4 {
        let spec = slots_jobspec(alloc, 1 + extent % 32, seconds)?;
        return add_ask(text, b"allocate ", k, &spec);
    }
    if row == 5 {
        let spec = memory_jobspec(alloc, 1 + extent % 32, seconds)?;
        return add_ask(text, b"allocate ", k, &spec);
    }
    if row == 6 {
        return add_number(text, b"cancel ", 1 + extent % k);
    }
    add_number(text, b"advance ", second)
}

/// Adds the line of command `k`, with its line feed.
fn add_line(
    alloc: Global,
    text: &mut Vec<u8>,
    k: u64,
    row: u64,
    extent: u64,
    second: u64,
) -> Result<(), AllocError>
    requires some { 0 < k }
    requires small { extent < 4096 }
    ensures { OnOk result (text.new.items ≡ text.old.items ++
        (codes "load " ++ command_text k row extent second ++ codes "\n")) }
{
    push_bytes(text, b"load ")?;
    add_command(alloc, text, k, row, extent, second)?;
    push_bytes(text, b"\n")
}

/// The input of so many commands.
pub fn load_text(alloc: Global, commands: u64) -> Result<Text, AllocError>
    requires { commands ≤ MOST_COMMANDS }
    ensures { IfOk result (λ text. text ≡ load_text commands) }
{
    let mut text = Vec::new(alloc);
    let mut number = commands;
    let mut second = 0;
    for k in 0..commands {
        number = next_drawn(number);
        let row = number / 65_536 % 8;
        let extent = number / 65_536 / 8;
        second += seconds_on(row, extent);
        add_line(alloc, &mut text, k + 1, row, extent, second)?;
    }
    Ok(Text::of_vec(text))
}
