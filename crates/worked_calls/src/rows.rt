//! Rows as they stand in a file.
ghost use Rattle.std.specs.Prelude.{◌<◌};

use flux_io::{FileFail, Files, Got};
use std::alloc::{AllocError, Global};
use std::io;
use std::io::{Error, ErrorKind};
use text_forms::{push, push_bytes};

/// How many bytes a file of rows may have.
const MOST_BYTES: u64 = 16_777_216;

/// The bytes of a file.
pub(crate) fn file<F: Files>(alloc: Global, files: &mut F, path: &str) -> io::Result<Vec<u8>> {
    let mut bytes = Vec::new(alloc);
    match files.read(path, &mut bytes, MOST_BYTES) {
        Ok(Got::Whole) => Ok(bytes),
        Ok(Got::Absent) => Err(Error::from(ErrorKind::NotFound)),
        Ok(Got::Long) => Err(Error::from(ErrorKind::FileTooLarge)),
        Err(FileFail::Failed) => Err(Error::from(ErrorKind::Other)),
        Err(FileFail::Memory) => Err(Error::from(ErrorKind::OutOfMemory)),
    }
}

/// Whether nothing of a line counts: it is empty or begins with `#`.
pub(crate) fn is_comment(line: &[u8]) -> bool {
    line.is_empty() || line.first() == Some(&b'#')
}

/// What stands behind two spaces at the front.
pub(crate) fn wanted_in(line: &[u8]) -> Option<&[u8]> {
    if line.len() < 2 {
        return None;
    }
    let (front, rest) = line.split_at(2);
    if front == b"  ".as_slice() {
        Some(rest)
    } else {
        None
    }
}

/// What a hexadecimal digit counts.
fn digit(byte: u8) -> u8
    ensures { result < 16 }
{
    match byte {
        b'0'..=b'9' => byte - b'0',
        b'A'..=b'F' => byte - b'A' + 10,
        _ => 0,
    }
}

/// Adds what stands behind a percent sign: no byte for `.`, the byte of two digits, and what follows.
fn push_escape(text: &mut Vec<u8>, part: &[u8]) -> Result<(), AllocError> {
    if part.first() == Some(&b'.') {
        return push_bytes(text, &part[1..]);
    }
    if part.len() < 2 {
        return Ok(());
    }
    push(text, digit(part[0]) * 16 + digit(part[1]))?;
    push_bytes(text, &part[2..])
}

/// The bytes that a line writes.
pub(crate) fn decoded(alloc: Global, line: &[u8]) -> Result<Vec<u8>, AllocError> {
    let mut text = Vec::new(alloc);
    let mut parts = line.split(|byte| *byte == b'%');
    push_bytes(&mut text, parts.next().unwrap_or(b""))?;
    for part in parts {
        push_escape(&mut text, part)?;
    }
    Ok(text)
}
