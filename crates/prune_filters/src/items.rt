//! How a text is cut.
ghost use Rattle.std.specs.Prelude.{◌≡◌, [], ◌∷◌, ◌++◌, MatchOption};
ghost use Rattle.prune_filters.specs.Names.{items_of};

use text_forms::cut_at;

/// The first item of a text, and what stands behind its comma, if there is one.
pub(crate) fn first_item(text: &[u8]) -> (&[u8], Option<&[u8]>)
    ensures items { MatchOption result.1 (items_of text.now ≡ result.0.now ∷ [])
        (λ rest. items_of text.now ≡ result.0.now ∷ items_of rest.now) }
    ensures parts { MatchOption result.1 (text.now ≡ result.0.now) (λ rest. text.now ≡ result.0.now ++ 44 ∷ rest.now) }
{
    match cut_at(text, b',') {
        None => (text, None),
        Some((item, rest)) => (item, Some(rest)),
    }
}
