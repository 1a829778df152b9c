//! Resource sets (RFC 20).
use crate::graphs::graph_in;
use crate::ids::push_ranges;
use crate::words::{first_index, first_number, first_word, with_text, word};
use flux_defs::{Claim, Job, List};
use flux_io::Files;
use json_fields::field_word;
use resource_set_r::{RFault, RSet, read_r, write_r};
use std::alloc::{AllocError, Global};
use std::io;
use text_forms::{push_bytes, push_decimal};

/// The claim of a mode on a vertex, of so much.
fn claim_of(mode: &[u8], vertex: u32, rest: &[u8]) -> Claim {
    if mode == b"hold".as_slice() {
        return Claim::Hold { vertex };
    }
    match first_number(rest) {
        Some((quantity, _)) => Claim::Take { vertex, quantity },
        None => Claim::Pass { vertex },
    }
}

/// The claims of a text, with commas between them.
fn claims_in(alloc: Global, text: &[u8]) -> Result<List<Claim>, AllocError> {
    let mut claims = Vec::new(alloc);
    for part in text.split(|byte| *byte == b',') {
        let (mode, rest) = first_word(part);
        if let Some((vertex, rest)) = first_index(rest) {
            claims.push(claim_of(mode, vertex, rest))?;
        }
    }
    Ok(List::of_vec(claims))
}

/// R of a job with these claims on a graph, from second 10 to second 20.
pub(crate) fn written<F: Files>(alloc: Global, files: &mut F, text: &[u8]) -> io::Result<Vec<u8>> {
    let (name, rest) = first_word(text);
    let graph = graph_in(alloc, files, name)?;
    let job = Job {
        id: 5,
        start: 10,
        end: 20,
        claims: claims_in(alloc, rest)?,
    };
    Ok(write_r(alloc, &graph, &job)?.into_vec())
}

/// A word for a fault, with the path of a field.
fn fault(alloc: Global, fault: &RFault) -> Result<Vec<u8>, AllocError> {
    match fault {
        RFault::NotJson => word(alloc, b"json"),
        RFault::Field { path, fault } => {
            with_text(alloc, field_word(*fault).as_bytes(), path.bytes())
        }
        RFault::Version => word(alloc, b"version"),
        RFault::Idset { .. } => word(alloc, b"idset"),
        RFault::Hosts => word(alloc, b"hosts"),
        RFault::RepeatedRank { .. } => word(alloc, b"repeated"),
        RFault::Memory => Err(AllocError),
    }
}

/// The rows of a set, how many hosts it names, its start and its end.
fn told(alloc: Global, set: &RSet) -> Result<Vec<u8>, AllocError> {
    let mut told = Vec::new(alloc);
    for row in set.rows.items() {
        push_ranges(&mut told, &row.ranks)?;
        push_bytes(&mut told, b": cores ")?;
        push_ranges(&mut told, &row.cores)?;
        push_bytes(&mut told, b", gpus ")?;
        push_ranges(&mut told, &row.gpus)?;
        push_bytes(&mut told, b"; ")?;
    }
    push_decimal(&mut told, set.hosts.len() as u64)?;
    push_bytes(&mut told, b" hosts; from ")?;
    push_decimal(&mut told, set.start)?;
    push_bytes(&mut told, b" to ")?;
    push_decimal(&mut told, set.end)?;
    Ok(told)
}

/// What an R says.
pub(crate) fn set(alloc: Global, text: &[u8]) -> Result<Vec<u8>, AllocError> {
    match read_r(alloc, text) {
        Ok(set) => told(alloc, &set),
        Err(found) => fault(alloc, &found),
    }
}
