//! The input's lines.
ghost use Rattle.std.specs.Prelude.{◌≡◌, ◌<◌, length};
ghost use Rattle.text_forms.specs.Cuts.{Lacks};
ghost use Rattle.fluxion_lines.specs.Lines.{BeginsWithLine, read_of};

use text_forms::cut_at;

/// The first line's bytes before its line feed, and what follows that.
pub(crate) fn cut_line(bytes: &[u8]) -> (&[u8], &[u8])
    requires { 0 < length bytes.now }
    ensures feed { Lacks 10 result.0.now }
    ensures begins { BeginsWithLine result.0.now result.1.now bytes.now }
{
    match cut_at(bytes, b'\n') {
        Some(parts) => parts,
        None => (bytes, &[]),
    }
}

/// The bytes less one carriage return at their end.
pub(crate) fn without_return(bytes: &[u8]) -> &[u8]
    ensures { result.now ≡ read_of bytes.now }
{
    match bytes.last() {
        Some(b'\r') => &bytes[..bytes.len() - 1],
        _ => bytes,
    }
}
