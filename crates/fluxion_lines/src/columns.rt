//! The lines of an output.
ghost use Rattle.std.specs.Prelude.{◌≡◌};
ghost use Rattle.fluxion_lines.specs.Columns.{line_feeds};

/// How many line feeds the bytes have.
pub fn line_feeds(bytes: &[u8]) -> usize
    ensures { result ≡ line_feeds bytes.now }
{
    bytes.iter().filter(|byte| **byte == b'\n').count()
}
