//! The names of hosts, one by one.
ghost use Rattle.std.specs.Prelude.{◌≡◌, ◌+◌, ◌-◌, ◌++◌, IfOk, OnOk};
ghost use Rattle.idset_text.specs.Hostlists.{padded, names_from, own_names, names_of};

use flux_defs::{List, Text};
use idset_text::Hosts;
use itoa::Buffer;
use std::alloc::{AllocError, Global};
use text_forms::push;

/// A prefix and a number, with zeros before it up to the width.
fn numbered(alloc: Global, prefix: &[u8], width: u32, number: u32) -> Result<Text, AllocError>
    ensures { IfOk result (λ name. name ≡ prefix.now ++ padded width number) }
{
    let mut buffer = Buffer::new();
    let digits = buffer.format(number).as_bytes();
    let mut name = Vec::from_slice(alloc, prefix)?;
    let width = width as usize;
    if digits.len() < width {
        let zeros = vec![in alloc; b'0'; width - digits.len()]?;
        name.extend_from_slice(zeros.as_slice())?;
    }
    name.extend_from_slice(digits)?;
    Ok(Text::of_vec(name))
}

/// Adds the names of a prefix with the numbers from `lo` up to and with `hi`.
fn add_numbered(
    alloc: Global,
    names: &mut Vec<Text>,
    prefix: &[u8],
    lo: u32,
    hi: u32,
    width: u32,
) -> Result<(), AllocError>
    ensures { OnOk result (names.new.items ≡ names.old.items ++ names_from prefix.now width (hi + 1 - lo) lo) }
{
    'numbers: for number in u64::from(lo)..u64::from(hi) + 1 {
        push(names, numbered(alloc, prefix, width, number as u32)?)?;
    }
    Ok(())
}

/// Adds the names of these hosts.
fn add_names(alloc: Global, names: &mut Vec<Text>, hosts: &Hosts) -> Result<(), AllocError>
    ensures { OnOk result (names.new.items ≡ names.old.items ++ own_names hosts.now) }
{
    match hosts {
        Hosts::One { name } => push(names, name.copy(alloc)?),
        Hosts::Many {
            prefix,
            lo,
            hi,
            width,
        } => add_numbered(alloc, names, prefix.bytes(), *lo, *hi, *width),
    }
}

/// The names that the hosts stand for, in order.
pub(crate) fn names_of(alloc: Global, hosts: &[Hosts]) -> Result<List<Text>, AllocError>
    ensures { IfOk result (λ names. names ≡ names_of hosts.now) }
{
    let mut names = Vec::new(alloc);
    'hosts: for item in hosts {
        add_names(alloc, &mut names, item)?;
    }
    Ok(List::of_vec(names))
}
