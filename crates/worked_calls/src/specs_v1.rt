//! Jobspecs of version 1 (RFC 25).
use crate::graphs::graph_in;
use crate::words::{with_text, word};
use flux_defs::Ask;
use flux_io::Files;
use jobspec_v1::{SpecFault, read_v1};
use json_fields::field_word;
use std::alloc::{AllocError, Global};
use std::io;
use text_forms::{push_bytes, push_decimal};

/// A word for a fault, and its path.
fn fault(alloc: Global, fault: &SpecFault) -> Result<Vec<u8>, AllocError> {
    match fault {
        SpecFault::NotJson => word(alloc, b"json"),
        SpecFault::Field { path, fault } => {
            with_text(alloc, field_word(*fault).as_bytes(), path.bytes())
        }
        SpecFault::Version => word(alloc, b"version"),
        SpecFault::Form => word(alloc, b"form"),
        SpecFault::Label { path } => with_text(alloc, b"label", path.bytes()),
        SpecFault::Task { path } => with_text(alloc, b"task", path.bytes()),
        SpecFault::Shape(_) => word(alloc, b"shape"),
        SpecFault::Constraint { path } => with_text(alloc, b"constraint", path.bytes()),
        SpecFault::NotInProfile { path } => with_text(alloc, b"profile", path.bytes()),
        SpecFault::Memory => Err(AllocError),
    }
}

/// How many needs are asked for, and for how long.
fn ask(alloc: Global, ask: &Ask) -> Result<Vec<u8>, AllocError> {
    let mut told = Vec::new(alloc);
    push_decimal(&mut told, ask.needs.len() as u64)?;
    push_bytes(&mut told, b" need, ")?;
    push_decimal(&mut told, ask.duration)?;
    push_bytes(&mut told, b" seconds")?;
    Ok(told)
}

/// What a jobspec asks for over the graph of two nodes.
pub(crate) fn told<F: Files>(alloc: Global, files: &mut F, text: &[u8]) -> io::Result<Vec<u8>> {
    let graph = graph_in(alloc, files, b"two_nodes")?;
    match read_v1(alloc, &graph, text) {
        Ok(asked) => Ok(ask(alloc, &asked)?),
        Err(found) => Ok(fault(alloc, &found)?),
    }
}
