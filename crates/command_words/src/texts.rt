//! Words as texts.
ghost use Rattle.std.specs.Prelude.{◌≡◌, All, IsUtf8, IfOk, MatchOption, map, string_bytes};

use flux_defs::{List, Text};
use std::alloc::{AllocError, Global};
use std::str::from_utf8;

/// The words as texts; none, where one of them isn't UTF-8.
pub fn as_texts(alloc: Global, words: &List<Text>) -> Result<Option<Vec<String>>, AllocError>
    ensures { IfOk result (λ read. MatchOption read (All IsUtf8 words.now → ⊥)
        (λ texts. All IsUtf8 words.now × (map string_bytes texts.items ≡ words.now))) }
{
    let mut texts = Vec::new(alloc);
    for word in words.items() {
        let Ok(text) = from_utf8(word.bytes()) else {
            return Ok(None);
        };
        texts.push(String::from_str(alloc, text)?)?;
    }
    Ok(Some(texts))
}
