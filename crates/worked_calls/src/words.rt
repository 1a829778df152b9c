//! Words of a text, and what is told in words.
use std::alloc::{AllocError, Global};
use text_forms::{cut_at, number_in, push_bytes, push_decimal};

/// The text up to the first space, and what stands behind it.
pub(crate) fn first_word(text: &[u8]) -> (&[u8], &[u8]) {
    cut_at(text, b' ').unwrap_or((text, b""))
}

/// The number at the front of a text, and what stands behind it.
pub(crate) fn first_number(text: &[u8]) -> Option<(u64, &[u8])> {
    let (word, rest) = first_word(text);
    Some((number_in(word)?, rest))
}

/// The same of 32 bits.
pub(crate) fn first_index(text: &[u8]) -> Option<(u32, &[u8])> {
    let (number, rest) = first_number(text)?;
    Some((u32::try_from(number).ok()?, rest))
}

/// A word alone.
pub(crate) fn word(alloc: Global, word: &[u8]) -> Result<Vec<u8>, AllocError> {
    Vec::from_slice(alloc, word)
}

/// A word and a number.
pub(crate) fn with_number(alloc: Global, front: &[u8], number: u64) -> Result<Vec<u8>, AllocError> {
    let mut told = Vec::from_slice(alloc, front)?;
    push_bytes(&mut told, b" ")?;
    push_decimal(&mut told, number)?;
    Ok(told)
}

/// A word and a text.
pub(crate) fn with_text(alloc: Global, front: &[u8], text: &[u8]) -> Result<Vec<u8>, AllocError> {
    let mut told = Vec::from_slice(alloc, front)?;
    push_bytes(&mut told, b" ")?;
    push_bytes(&mut told, text)?;
    Ok(told)
}

/// `yes` or `no`.
pub(crate) fn whether(alloc: Global, is_so: bool) -> Result<Vec<u8>, AllocError> {
    word(alloc, if is_so { b"yes" } else { b"no" })
}

/// Adds a number, or `none`.
pub(crate) fn push_some(told: &mut Vec<u8>, number: Option<u32>) -> Result<(), AllocError> {
    match number {
        Some(number) => push_decimal(told, u64::from(number)),
        None => push_bytes(told, b"none"),
    }
}

/// A number, or `none`.
pub(crate) fn some(alloc: Global, number: Option<u32>) -> Result<Vec<u8>, AllocError> {
    let mut told = Vec::new(alloc);
    push_some(&mut told, number)?;
    Ok(told)
}
