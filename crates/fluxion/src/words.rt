//! The words of the system, as bytes.
use flux_defs::{List, Text};
use std::alloc::{AllocError, Global};
use std::env::{Env, FillError};

/// How many bytes a word may have at first; twice as many are tried, again and again.
const FIRST_ROOM: usize = 256;

/// The word at a place, where 0 is the program's name; none past the last.
fn word_at<E: Env>(alloc: Global, env: &E, at: usize) -> Result<Option<Text>, AllocError> {
    let mut room = FIRST_ROOM;
    for _ in 0..usize::BITS {
        let mut bytes = vec![in alloc; 0u8; room]?;
        match env.arg(at, bytes.as_mut_slice()) {
            Ok(length) => {
                bytes.truncate(length);
                return Ok(Some(Text::of_vec(bytes)));
            }
            Err(FillError::TooLong) => room = room.saturating_add(room),
            Err(FillError::NotPresent) => return Ok(None),
        }
    }
    Err(AllocError)
}

/// The words after the program's name. They need not be UTF-8, and of the name nothing is asked.
pub(crate) fn words_of<E: Env>(alloc: Global, env: &E) -> Result<List<Text>, AllocError> {
    let mut words = Vec::new(alloc);
    for at in 1..usize::MAX {
        match word_at(alloc, env, at)? {
            Some(word) => words.push(word)?,
            None => break,
        }
    }
    Ok(List::of_vec(words))
}
