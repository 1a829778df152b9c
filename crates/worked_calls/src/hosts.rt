//! Hostlists (RFC 29).
use crate::ids::form;
use crate::words::{first_word, whether};
use flux_defs::{List, Text};
use idset_text::{Hosts, has_host, read_hostlist, write_hostlist};
use std::alloc::{AllocError, Global};
use text_forms::{push_bytes, push_decimal};

/// Adds an item.
fn push_item(told: &mut Vec<u8>, item: &Hosts) -> Result<(), AllocError> {
    match item {
        Hosts::One { name } => push_bytes(told, name.bytes()),
        Hosts::Many {
            prefix,
            lo,
            hi,
            width,
        } => {
            push_bytes(told, prefix.bytes())?;
            push_bytes(told, b"[")?;
            push_decimal(told, u64::from(*lo))?;
            push_bytes(told, b"-")?;
            push_decimal(told, u64::from(*hi))?;
            push_bytes(told, b"]/")?;
            push_decimal(told, u64::from(*width))
        }
    }
}

/// The items of a hostlist.
pub(crate) fn hostlist(alloc: Global, text: &[u8]) -> Result<Vec<u8>, AllocError> {
    let hosts = match read_hostlist(alloc, text) {
        Ok(hosts) => hosts,
        Err(fault) => return form(alloc, fault),
    };
    let mut told = Vec::new(alloc);
    for (at, item) in hosts.items().iter().enumerate() {
        if at > 0 {
            push_bytes(&mut told, b" ")?;
        }
        push_item(&mut told, item)?;
    }
    Ok(told)
}

/// Whether a name is in a hostlist.
pub(crate) fn is_in(alloc: Global, text: &[u8]) -> Result<Vec<u8>, AllocError> {
    let (name, list) = first_word(text);
    match read_hostlist(alloc, list) {
        Ok(hosts) => whether(alloc, has_host(&hosts, name)),
        Err(fault) => form(alloc, fault),
    }
}

/// The names in a text.
fn names_in(alloc: Global, text: &[u8]) -> Result<List<Text>, AllocError> {
    let mut names = Vec::new(alloc);
    if text.is_empty() {
        return Ok(List::of_vec(names));
    }
    for name in text.split(|byte| *byte == b' ') {
        names.push(Text::of(alloc, name)?)?;
    }
    Ok(List::of_vec(names))
}

/// The hostlists of names.
pub(crate) fn written(alloc: Global, text: &[u8]) -> Result<Vec<u8>, AllocError> {
    let names = names_in(alloc, text)?;
    let mut told = Vec::new(alloc);
    for (at, list) in write_hostlist(alloc, &names)?.items().iter().enumerate() {
        if at > 0 {
            push_bytes(&mut told, b" ")?;
        }
        push_bytes(&mut told, list.bytes())?;
    }
    Ok(told)
}
