//! Whole numbers in decimal.
ghost use Rattle.std.specs.Prelude.{◌≡◌, ℕ, ◌^◌, ◌<◌, decimal, IfSome, IfNone};
ghost use Rattle.text_forms.specs.Numbers.{number_in};

use fast_float::parse_u64;
use itoa::Buffer;

/// The number that the bytes are the decimal text of.
fn number_of(digits: &[u8]) -> Option<u64>
    ensures some { IfSome result (λ n. digits.now ≡ decimal n) }
    ensures fits { IfSome result (λ n. n < 2 ^ 64) }
    ensures none { IfNone result ((n : ℕ) → n < 2 ^ 64 → digits.now ≡ decimal n → ⊥) }
{
    let Ok(number) = parse_u64(digits) else {
        return None;
    };
    let mut buffer = Buffer::new();
    let text = buffer.format(number).as_bytes();
    if text == digits {
        return Some(number);
    }
    None
}

/// The number of at most 64 bits that a word is in decimal, without a sign or a leading zero.
pub fn number_in(word: &[u8]) -> Option<u64>
    ensures { result ≡ number_in word.now }
{
    number_of(word)
}
