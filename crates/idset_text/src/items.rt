//! How a text is cut into items.
ghost use Rattle.std.specs.Prelude.{◌≡◌, ◌+◌, ◌<◌, ◌≤◌, [], ◌∷◌, ◌++◌, false, length, take, drop, slice_index};
ghost use Rattle.std.specs.Prelude.{position, MatchOption};
ghost use Rattle.idset_text.specs.Items.{pieces, pieces_after, is_dash, ends_of};

/// How many bytes the first item of a text has: it ends before the first comma outside brackets.
fn item_len(text: &[u8]) -> usize
    ensures within { result ≤ length text.now }
    ensures comma { result < length text.now → slice_index text.now result ≡ 44 }
    ensures pieces { pieces false text.now ≡ take result text.now ∷ pieces_after (drop result text.now) }
{
    let mut inside = false;
    'bytes: for (at, byte) in text.iter().enumerate() {
        match byte {
            b'[' => inside = true,
            b']' => inside = false,
            b',' if !inside => return at,
            _ => {}
        }
    }
    text.len()
}

/// The first item of a text, and what stands behind its comma, if there is one.
pub fn first_item(text: &[u8]) -> (&[u8], Option<&[u8]>)
    ensures only { MatchOption result.1 (pieces false text.now ≡ result.0.now ∷ [])
        (λ rest. pieces false text.now ≡ result.0.now ∷ pieces false rest.now) }
    ensures parts { MatchOption result.1 (text.now ≡ result.0.now) (λ rest. text.now ≡ result.0.now ++ 44 ∷ rest.now) }
{
    let len = item_len(text);
    if len == text.len() {
        return (text, None);
    }
    (&text[..len], Some(&text[len + 1..]))
}

/// The place of an item's first dash.
fn dash_place(item: &[u8]) -> Option<usize>
    ensures { result ≡ position is_dash item.now }
{
    item.iter().position(|byte| *byte == b'-')
}

/// The two ends of an item: what stands before and behind its first dash, or twice the whole.
pub fn ends(item: &[u8]) -> (&[u8], &[u8])
    ensures first { result.0.now ≡ (ends_of item.now).0 }
    ensures last { result.1.now ≡ (ends_of item.now).1 }
{
    match dash_place(item) {
        Some(dash) => (&item[..dash], &item[dash + 1..]),
        None => (item, item),
    }
}
