//! The plain form of a text.
ghost use Rattle.std.specs.Prelude.{◌≡◌, ◌<◌, ◌≤◌, ◌++◌, IsTrue, length, slice_index, drop, IfOk, OnOk, unwrap_or};
ghost use Rattle.json_whole.specs.Run.{begins_run, first_run, written};
ghost use Rattle.json_whole.specs.Plain.{in_string, outside, plain_of};
ghost use Rattle.json_whole.specs.Forms.{plain_behind, written_as};

use crate::runs::{Form, begins_run, first_run, form_of, write_run};
use flux_defs::Text;
use std::alloc::{AllocError, Global};

/// The place behind the closing quote of a string whose opening one stands right before `from`, or the text's end
/// where the string has none.
fn string_end(text: &[u8], from: usize) -> usize
    requires { from ≤ length text.now }
    ensures passed { from ≤ result }
    ensures within { result ≤ length text.now }
    ensures same { plain_behind in_string from text.now ≡ plain_behind outside result text.now }
{
    let mut escaped = false;
    'bytes: for at in from..text.len() {
        let byte = text[at];
        if escaped {
            escaped = false;
        } else if byte == b'"' {
            return at + 1;
        } else {
            escaped = byte == b'\\';
        }
    }
    text.len()
}

/// The place from `from` on where the first run begins, or the text's end. Strings are passed over whole.
fn run_start(text: &[u8], from: usize) -> usize
    requires { from ≤ length text.now }
    ensures passed { from ≤ result }
    ensures within { result ≤ length text.now }
    ensures same { plain_behind outside from text.now ≡ plain_behind outside result text.now }
    ensures run { result < length text.now → IsTrue (begins_run (slice_index text.now result)) }
{
    let mut at = from;
    'bytes: while at < text.len() {
        let byte = text[at];
        if begins_run(byte) {
            return at;
        }
        at += 1;
        if byte == b'"' {
            at = string_end(text, at);
        }
    }
    at
}

/// How many bytes stay at the front, before the first run that is written otherwise, and the form of that run. Where
/// all bytes stay, the run is the empty one at the end.
fn kept_front(text: &[u8]) -> (usize, Form)
    ensures within { result.0 ≤ length text.now }
    ensures same { plain_of text.now ≡ plain_behind outside result.0 text.now }
    ensures run { result.0 < length text.now → IsTrue (begins_run (slice_index text.now result.0)) }
    ensures form { let run = first_run (drop result.0 text.now) in written_as result.1 run ≡ written run }
{
    let mut at = 0;
    'runs: while at < text.len() {
        let start = run_start(text, at);
        let run = first_run(&text[start..]);
        match form_of(run) {
            Form::Same => at = start + run.len(),
            form => return (start, form),
        }
    }
    (at, Form::Same)
}

/// Adds the plain form of bytes at the front of a text, and says how many they were: so many that stay, and the run
/// behind them, which has this form.
fn write_front(out: &mut Vec<u8>, text: &[u8], len: usize, form: Form) -> Result<usize, AllocError>
    requires some { 0 < length text.now }
    requires within { len ≤ length text.now }
    requires same { plain_of text.now ≡ plain_behind outside len text.now }
    requires run { len < length text.now → IsTrue (begins_run (slice_index text.now len)) }
    requires form { let run = first_run (drop len text.now) in written_as form run ≡ written run }
    ensures some { IfOk result (λ n. 0 < n) }
    ensures within { IfOk result (λ n. n ≤ length text.now) }
    ensures written { IfOk result
        (λ n. out.new.items ++ plain_of (drop n text.now) ≡ out.old.items ++ plain_of text.now) }
{
    let run = first_run(&text[len..]);
    out.extend_from_slice(&text[..len])?;
    write_run(out, form, run)?;
    Ok(len + run.len())
}

/// Adds the plain form of a text.
fn write_plain(out: &mut Vec<u8>, text: &[u8]) -> Result<(), AllocError>
    ensures { OnOk result (out.new.items ≡ out.old.items ++ plain_of text.now) }
{
    let mut at = 0;
    'pieces: while at < text.len() {
        let rest = &text[at..];
        let (len, form) = kept_front(rest);
        at += write_front(out, rest, len, form)?;
    }
    Ok(())
}

/// The plain form of a text: strings and all else stay, and a run of number bytes outside strings is written as
/// a whole number that 64 bits hold, or as a list of its text where it is another number (RFC 8259, section 6).
/// So `3600.0` becomes `3600`, and `1.5` becomes `["1.5"]`. A run that is no number stays.
pub fn plain(alloc: Global, bytes: &[u8]) -> Result<Text, AllocError>
    ensures { IfOk result (λ text. text ≡ plain_of bytes.now) }
{
    let mut out = Vec::with_capacity(alloc, bytes.len())?;
    write_plain(&mut out, bytes)?;
    Ok(Text::of_vec(out))
}

/// The plain form of a text, and `None` where that is the text itself, which is then not copied.
pub(crate) fn plain_if_other(alloc: Global, bytes: &[u8]) -> Result<Option<Text>, AllocError>
    ensures { IfOk result (λ form. unwrap_or form bytes.now ≡ plain_of bytes.now) }
{
    let (len, form) = kept_front(bytes);
    if len == bytes.len() {
        return Ok(None);
    }
    let mut out = Vec::with_capacity(alloc, bytes.len())?;
    let at = write_front(&mut out, bytes, len, form)?;
    write_plain(&mut out, &bytes[at..])?;
    Ok(Some(Text::of_vec(out)))
}
