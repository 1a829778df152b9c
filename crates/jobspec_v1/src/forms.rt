//! The four forms of RFC 25.
ghost use Rattle.std.specs.Prelude.{◌≡◌};
ghost use Rattle.jobspec_v1.specs.Forms.{is_leaf, are_cores, is_core_slot, is_node_of_slot, is_v1};

use need_shape::RawNeed;

fn is_leaf(kind: &[u8], raw: &RawNeed) -> bool
    ensures { result ≡ is_leaf kind.now raw.now }
{
    raw.kind.bytes() == kind && raw.with.is_empty()
}

/// Whether these are cores, or cores and gpus in either order.
fn are_cores(requests: &[RawNeed]) -> bool
    ensures { result ≡ are_cores requests.now }
{
    match requests {
        [one] => is_leaf(b"core", one),
        [one, other] => {
            (is_leaf(b"core", one) && is_leaf(b"gpu", other))
                || (is_leaf(b"gpu", one) && is_leaf(b"core", other))
        }
        _ => false,
    }
}

fn is_core_slot(raw: &RawNeed) -> bool
    ensures { result ≡ is_core_slot raw.now }
{
    raw.kind.bytes() == b"slot".as_slice() && are_cores(raw.with.items())
}

fn is_node_of_slot(raw: &RawNeed) -> bool
    ensures { result ≡ is_node_of_slot raw.now }
{
    if raw.kind.bytes() != b"node".as_slice() {
        return false;
    }
    match raw.with.items() {
        [slot] => is_core_slot(slot),
        _ => false,
    }
}

/// Whether the request vertices have one of the four forms: one slot, or one request for nodes with one slot in it;
/// with cores, or cores and gpus, in the slot.
pub(crate) fn is_v1(requests: &[RawNeed]) -> bool
    ensures { result ≡ is_v1 requests.now }
{
    match requests {
        [one] => is_core_slot(one) || is_node_of_slot(one),
        _ => false,
    }
}
