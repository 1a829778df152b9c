//! The first index whose key an earlier index has.
ghost use Rattle.std.specs.Prelude.{◌≡◌, ◌<◌, ℕ, IfOk, IfSome, IsTrue, Some, length};
ghost use Rattle.resource_graph.specs.Finds.{IsFirstOf};
ghost use Rattle.std.specs.declared.cmp.Ordering.TheVariants.{Less};
ghost use Rattle.graph_build.specs.Keys.{IsRepeated, lesser};

use std::alloc::{AllocError, Global};
use std::collections::BTreeSet;

/// The first index whose key an earlier index has. An index without a key takes no part.
pub(crate) fn first_repeated<K: Ord + Copy>(
    alloc: Global,
    keys: &[Option<K>],
) -> Result<Option<usize>, AllocError>
    ensures first { IfOk result (IsFirstOf (IsRepeated K.cmp keys.now)) }
    ensures within { IfOk result (λ found. IfSome found (λ v. v < length keys.now)) }
{
    if keys_rise(keys) {
        return Ok(None);
    }
    let mut seen = BTreeSet::new(alloc);
    for at in 0..keys.len() {
        if let Some(key) = keys[at] {
            if !seen.insert(key)? {
                return Ok(Some(at));
            }
        }
    }
    Ok(None)
}

/// Whether each key is greater than the one before it. Indices without a key take no part.
fn keys_rise<K: Ord + Copy>(keys: &[Option<K>]) -> bool
    ensures { IsTrue result → (v : ℕ) → IsRepeated K.cmp keys.now v → ⊥ }
{
    let mut last: Option<K> = None;
    for at in 0..keys.len() {
        if let Some(key) = keys[at] {
            if !is_greater(key, last) {
                return false;
            }
            last = Some(key);
        }
    }
    true
}

/// Whether a key is greater than the last one, where there is one.
fn is_greater<K: Ord + Copy>(key: K, last: Option<K>) -> bool
    ensures { IsTrue result → (before : K) → last ≡ Some before → K.cmp before key ≡ Less }
{
    match last {
        Some(before) => before < key,
        None => true,
    }
}

/// The lesser of two indices, of which either may be missing.
pub(crate) fn lesser(one: Option<usize>, other: Option<usize>) -> Option<usize>
    ensures { result ≡ lesser one other }
{
    match (one, other) {
        (Some(a), Some(b)) => Some(a.min(b)),
        (Some(a), None) => Some(a),
        (None, b) => b,
    }
}
