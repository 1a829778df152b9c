//! What the calls of a row gave beside what they should have given.
use crate::playing::Played;
use crate::reading::Row;
use std::alloc::{AllocError, Global};

/// The line, from 1, in which two texts first differ.
fn first_difference(found: &[u8], wanted: &[u8]) -> Option<usize> {
    if found == wanted {
        return None;
    }
    let mut line = 1usize;
    for (byte, want) in found.iter().zip(wanted) {
        if byte != want {
            return Some(line);
        }
        if *byte == b'\n' {
            line = line.saturating_add(1);
        }
    }
    Some(line)
}

/// The call, from 1, that ends with another status than wanted, and that status.
fn first_other_status(
    alloc: Global,
    row: &Row,
    played: &Played,
) -> Result<Option<(usize, u8)>, AllocError> {
    let wanted = row.status.as_slice().trim_ascii();
    for (at, status) in played.statuses.iter().enumerate() {
        let text = format!(in alloc; "{status}")?;
        let is_zero = wanted.is_empty() && *status == 0;
        if text.as_bytes() != wanted && !is_zero {
            return Ok(Some((at.saturating_add(1), *status)));
        }
    }
    Ok(None)
}

/// `ok`, or where the row differs from what is wanted.
pub(crate) fn judge(alloc: Global, row: &Row, played: &Played) -> Result<String, AllocError> {
    if let Some((call, status)) = first_other_status(alloc, row, played)? {
        return format!(in alloc; "differs: call {call} ended with status {status}");
    }
    if let Some(line) = first_difference(played.output.as_slice(), row.output.as_slice()) {
        return format!(in alloc; "differs: stdout, line {line}");
    }
    if let Some(line) = first_difference(played.faults.as_slice(), row.faults.as_slice()) {
        return format!(in alloc; "differs: stderr, line {line}");
    }
    String::from_str(alloc, "ok")
}
