//! Idsets (RFC 22).
use crate::words::{first_index, whether, with_number, word};
use flux_defs::List;
use idset_text::{Range, TextFault, has_id, read_idset};
use std::alloc::{AllocError, Global};
use text_forms::{push_bytes, push_decimal};

/// Where a text breaks the grammar.
pub(crate) fn form(alloc: Global, fault: TextFault) -> Result<Vec<u8>, AllocError> {
    match fault {
        TextFault::Form { at } => with_number(alloc, b"form", at as u64),
        TextFault::Memory => Err(AllocError),
    }
}

/// Adds stretches, with spaces between them.
pub(crate) fn push_ranges(told: &mut Vec<u8>, ranges: &List<Range>) -> Result<(), AllocError> {
    for (at, range) in ranges.items().iter().enumerate() {
        if at > 0 {
            push_bytes(told, b" ")?;
        }
        push_decimal(told, u64::from(range.lo))?;
        push_bytes(told, b"-")?;
        push_decimal(told, u64::from(range.hi))?;
    }
    Ok(())
}

/// The stretches of an idset.
pub(crate) fn idset(alloc: Global, text: &[u8]) -> Result<Vec<u8>, AllocError> {
    match read_idset(alloc, text) {
        Ok(ranges) => {
            let mut told = Vec::new(alloc);
            push_ranges(&mut told, &ranges)?;
            Ok(told)
        }
        Err(fault) => form(alloc, fault),
    }
}

/// Whether an id is in an idset.
pub(crate) fn is_in(alloc: Global, text: &[u8]) -> Result<Vec<u8>, AllocError> {
    let Some((id, set)) = first_index(text) else {
        return word(alloc, b"no id");
    };
    match read_idset(alloc, set) {
        Ok(ranges) => whether(alloc, has_id(&ranges, id)),
        Err(fault) => form(alloc, fault),
    }
}
