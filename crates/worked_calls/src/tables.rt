//! Tables of texts.
use crate::words::push_some;
use std::alloc::{AllocError, Global};
use text_forms::{cut_at, push_bytes, push_decimal};
use text_table::TextTable;

/// Adds the texts of a table, each behind a bar, and what stands past the last one.
fn push_texts(told: &mut Vec<u8>, table: &TextTable) -> Result<(), AllocError> {
    for number in 0..table.len().saturating_add(1) {
        push_bytes(told, b"|")?;
        push_bytes(told, table.text(number).unwrap_or(b"none"))?;
    }
    Ok(())
}

/// The numbers of texts with commas between them, how many there are, the number of the text behind a semicolon, and
/// the table.
pub(crate) fn numbered(alloc: Global, text: &[u8]) -> Result<Vec<u8>, AllocError> {
    let (texts, looked_for) = cut_at(text, b';').unwrap_or((text, b""));
    let mut table = TextTable::with_capacity(alloc, 2)?;
    let mut told = Vec::new(alloc);
    for (at, text) in texts.split(|byte| *byte == b',').enumerate() {
        if at > 0 {
            push_bytes(&mut told, b" ")?;
        }
        push_decimal(&mut told, table.add(alloc, text)? as u64)?;
    }
    push_bytes(&mut told, b", ")?;
    push_decimal(&mut told, table.len() as u64)?;
    push_bytes(&mut told, b", ")?;
    let number = table.number_of(looked_for);
    push_some(&mut told, number.and_then(|n| u32::try_from(n).ok()))?;
    push_bytes(&mut told, b", ")?;
    push_texts(&mut told, &table)?;
    Ok(told)
}
