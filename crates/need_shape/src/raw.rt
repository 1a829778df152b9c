//! A request vertex, and why a list of them is refused.
use flux_defs::{List, Text};
use std::alloc::AllocError;

/// A request vertex (RFC 14): a slot where its type is `slot`, else resources of its type. `with` are the request
/// vertices in it.
#[derive(Debug, Drop)]
pub struct RawNeed {
    pub kind: Text,
    pub count: u64,
    pub exclusive: Option<bool>,
    pub with: List<RawNeed>,
}

/// Why request vertices are no needs.
#[derive(Debug, Drop)]
pub enum ShapeFault {
    /// Two siblings ask for this type. A slot that is spread over nodes counts as type `node`.
    SameSiblings { kind: Text },
    /// The upper type of two siblings contains the lower one in the graph.
    NestedSiblings { upper: Text, lower: Text },
    /// A pool type is asked for exclusively.
    HeldPool { kind: Text },
    /// Something is asked for inside a pool type.
    PoolWith { kind: Text },
    /// A slot's count times one in it is past 2^46.
    CountLimit,
    /// Want of memory.
    Memory,
}

impl From<AllocError> for ShapeFault {
    ghost use Rattle.std.specs.Prelude.{◌≡◌};
    ghost use Rattle.need_shape.specs.declared.raw.ShapeFault.TheVariants.{Memory};

    ghost from_gives = { λ _ e. e ≡ Memory };

    fn from(_: AllocError) -> ShapeFault {
        ShapeFault::Memory
    }
}
