//! Names.
ghost use Rattle.std.specs.Prelude.{◌≡◌};
ghost use Rattle.std.specs.List.{list_all};
ghost use Rattle.text_forms.specs.Names.{is_name_byte, is_name};

fn is_name_byte(byte: u8) -> bool
    ensures { result ≡ is_name_byte byte }
{
    byte.is_ascii_alphanumeric() || byte == b'_' || byte == b'-' || byte == b'.'
}

fn are_name_bytes(bytes: &[u8]) -> bool
    ensures { result ≡ list_all is_name_byte bytes.now }
{
    bytes.iter().all(|byte| is_name_byte(*byte))
}

/// Whether the bytes are a name: one or more letters and digits of ASCII, `_`, `-` and `.`, and at most so many.
pub fn is_name(bytes: &[u8], most: usize) -> bool
    ensures { result ≡ is_name most bytes.now }
{
    if bytes.is_empty() || bytes.len() > most {
        return false;
    }
    are_name_bytes(bytes)
}
