//! The values that words give.
ghost use Rattle.std.specs.Prelude.{◌≡◌, IfOk, map, option_map, string_bytes};
ghost use Rattle.command_words.specs.Values.{values_in, values_held};

use crate::command::matches_of;
use crate::forms::are_in_form;
use std::alloc::{AllocError, Global};

/// The values that the words after a command give.
#[derive(Clone, Copy, Debug)]
pub struct WordValues<'a> {
    /// The name of the graph file.
    pub graph: &'a str,
    /// The value of `--horizon`.
    pub horizon: Option<&'a str>,
    /// The value of `--filters`.
    pub filters: Option<&'a str>,
    /// The value of `--jobspec`.
    pub jobspec: Option<&'a str>,
}

/// The values that the words after a command give; none, where they are not in form. An option and its value are two
/// words or one, `--NAME=VALUE`, before or behind the graph file's name; each comes at most once, and a lone `--` ends
/// them.
pub fn read_words<'a>(
    alloc: Global,
    words: &'a [String],
) -> Result<Option<WordValues<'a>>, AllocError>
    ensures { IfOk result (λ read. option_map values_held read ≡ values_in (map string_bytes words.entry.now)) }
{
    if !are_in_form(words) {
        return Ok(None);
    }
    let Ok(found) = matches_of(alloc, words) else {
        return Err(AllocError);
    };
    let Some(graph) = found.get_str("graph") else {
        return Ok(None);
    };
    Ok(Some(WordValues {
        graph,
        horizon: found.get_str("horizon"),
        filters: found.get_str("filters"),
        jobspec: found.get_str("jobspec"),
    }))
}
