//! Words of a line: runs of bytes other than space.
ghost use Rattle.std.specs.Prelude.{◌≡◌, ◌≤◌, ◌==◌, length, not};
ghost use Rattle.std.specs.List.{position_or_len};
ghost use Rattle.fluxion_lines.specs.Words.{skipped, first_word, after_word};

/// How many spaces stand at the front.
fn spaces(bytes: &[u8]) -> usize
    ensures place { result ≡ position_or_len (λ b. not (b == 32)) bytes.now }
    ensures within { result ≤ length bytes.now }
{
    'bytes: for (at, byte) in bytes.iter().enumerate() {
        if *byte != b' ' {
            return at;
        }
    }
    bytes.len()
}

/// Where the word at the front ends.
fn word_end(bytes: &[u8]) -> usize
    ensures place { result ≡ position_or_len (λ b. b == 32) bytes.now }
    ensures within { result ≤ length bytes.now }
{
    'bytes: for (at, byte) in bytes.iter().enumerate() {
        if *byte == b' ' {
            return at;
        }
    }
    bytes.len()
}

/// The bytes from the first that is no space on.
pub(crate) fn skipped(bytes: &[u8]) -> &[u8]
    ensures { result.now ≡ skipped bytes.now }
{
    let (_, rest) = bytes.split_at(spaces(bytes));
    rest
}

/// The first word, and what follows it; the word is empty where there is none.
pub(crate) fn first_word(bytes: &[u8]) -> (&[u8], &[u8])
    ensures word { result.0.now ≡ first_word bytes.now }
    ensures rest { result.1.now ≡ after_word bytes.now }
{
    let text = skipped(bytes);
    text.split_at(word_end(text))
}
