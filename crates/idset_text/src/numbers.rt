//! Numbers as decimal digits.
ghost use Rattle.std.specs.Prelude.{◌≡◌};
ghost use Rattle.idset_text.specs.Numbers.{has_leading_zero, number_of};

/// Whether a zero stands before further bytes.
pub fn leads_with_zero(bytes: &[u8]) -> bool
    ensures { result ≡ has_leading_zero bytes.now }
{
    match bytes {
        [first, _, ..] => *first == b'0',
        _ => false,
    }
}

/// The number that one or more digits write; `None` for other bytes and for a number of 2^32 or more.
pub fn number(bytes: &[u8]) -> Option<u32>
    ensures { result ≡ number_of bytes.now }
{
    if bytes.is_empty() {
        return None;
    }
    let mut value = 0u64;
    'digits: for byte in bytes {
        if !byte.is_ascii_digit() {
            return None;
        }
        value = value * 10 + u64::from(*byte - b'0');
        if value > u64::from(u32::MAX) {
            return None;
        }
    }
    u32::try_from(value).ok()
}
