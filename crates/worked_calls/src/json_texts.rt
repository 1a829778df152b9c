//! JSON with whole numbers (RFC 8259).
use crate::words::{first_number, first_word, word};
use json::Scratch;
use json_fields::field_word;
use json_whole::{
    FieldFault, PlainText, ValueFault, as_object, need_text, need_u64, plain, read_value,
};
use std::alloc::{AllocError, Global};
use text_forms::push_decimal;

/// The plain form of a text.
pub(crate) fn plain_form(alloc: Global, text: &[u8]) -> Result<Vec<u8>, AllocError> {
    Ok(plain(alloc, text)?.into_vec())
}

/// Whether a text is read.
pub(crate) fn is_read(alloc: Global, text: &[u8]) -> Result<Vec<u8>, AllocError> {
    let text = PlainText::of(alloc, text)?;
    let mut scratch = Scratch::new(alloc);
    match read_value(alloc, &text, &mut scratch) {
        Ok(_) => word(alloc, b"read"),
        Err(ValueFault::NotJson) => word(alloc, b"no json"),
        Err(ValueFault::Memory) => Err(AllocError),
    }
}

/// A key, the least and the greatest number that it may have, and an object.
#[derive(Drop)]
struct Asked<'a> {
    key: &'a str,
    least: u64,
    most: u64,
    object: &'a [u8],
}

/// What a text asks for.
fn question_in(text: &[u8]) -> Option<Asked<'_>> {
    let (key, rest) = first_word(text);
    let key = std::str::from_utf8(key).ok()?;
    let (least, rest) = first_number(rest)?;
    let (most, object) = first_number(rest)?;
    Some(Asked {
        key,
        least,
        most,
        object,
    })
}

/// A number, or the word of its fault.
fn number_told(alloc: Global, number: Result<u64, FieldFault>) -> Result<Vec<u8>, AllocError> {
    match number {
        Ok(number) => {
            let mut told = Vec::new(alloc);
            push_decimal(&mut told, number)?;
            Ok(told)
        }
        Err(fault) => word(alloc, field_word(fault).as_bytes()),
    }
}

/// The number at a key.
pub(crate) fn number(alloc: Global, text: &[u8]) -> Result<Vec<u8>, AllocError> {
    let Some(asked) = question_in(text) else {
        return word(alloc, b"no question");
    };
    let text = PlainText::of(alloc, asked.object)?;
    let mut scratch = Scratch::new(alloc);
    match read_value(alloc, &text, &mut scratch) {
        Ok(value) if as_object(&value).is_some() => number_told(
            alloc,
            need_u64(&value, asked.key, asked.least, asked.most),
        ),
        _ => word(alloc, b"no object"),
    }
}

/// The text at a key.
pub(crate) fn text(alloc: Global, text: &[u8]) -> Result<Vec<u8>, AllocError> {
    let (key, object) = first_word(text);
    let Ok(key) = std::str::from_utf8(key) else {
        return word(alloc, b"no key");
    };
    let text = PlainText::of(alloc, object)?;
    let mut scratch = Scratch::new(alloc);
    match read_value(alloc, &text, &mut scratch) {
        Ok(value) if as_object(&value).is_some() => match need_text(&value, key) {
            Ok(text) => word(alloc, text.as_bytes()),
            Err(fault) => word(alloc, field_word(fault).as_bytes()),
        },
        _ => word(alloc, b"no object"),
    }
}
