//! What a graph is built from.
use flux_defs::{List, Text};
use std::alloc::AllocError;

/// A vertex as a file gives it. Its kind is an index of the list of types, its parent an index of the list of
/// vertices that it stands in.
#[derive(Debug, Drop)]
pub struct RawVertex {
    pub kind: u32,
    pub base: Text,
    pub name: Text,
    pub id: Option<u32>,
    pub rank: Option<u32>,
    pub size: u64,
    pub unit: Text,
    pub properties: List<Text>,
    pub parent: Option<u32>,
}

/// Why a list of vertices is no graph: the first of these that holds, with the least index at which it does.
#[derive(Clone, Copy, Debug, PartialEq, Eq)]
pub enum GraphFault {
    /// More than 65,536 vertices.
    Vertices { found: u64 },
    /// More than 256 types.
    Kinds { found: u64 },
    /// The parent is no index of the list.
    UnknownParent { vertex: u32 },
    /// The kind is no index of the list of types.
    UnknownKind { vertex: u32 },
    /// No vertex is without a parent.
    NoRoot,
    /// The second vertex without a parent.
    ManyRoots { vertex: u32 },
    /// Its chain of parents never reaches the root.
    Cycle { vertex: u32 },
    /// More than 16 vertices from the root to it, both counted.
    Depth { vertex: u32 },
    /// A vertex above has its type.
    NestedKind { vertex: u32 },
    /// Its type is called slot.
    ReservedKind { vertex: u32 },
    /// It is of a pool type and has a child.
    PoolWithChild { vertex: u32 },
    /// A node, core or gpu of a size other than 1.
    Sized { vertex: u32 },
    /// Its size is past the greatest number, 2^46.
    Large { vertex: u32 },
    /// A core or gpu with no node above.
    Loose { vertex: u32 },
    /// A core or gpu without an id.
    NoId { vertex: u32 },
    /// An earlier core (or gpu) of its node has its id.
    DuplicateId { vertex: u32 },
    /// An earlier sibling has its name, or it is a node and an earlier node has.
    DuplicateName { vertex: u32 },
    /// Some node has a rank, and this node has none, or that of an earlier node.
    Ranks { vertex: u32 },
    /// Want of memory.
    Memory,
}

impl From<AllocError> for GraphFault {
    ghost use Rattle.std.specs.Prelude.{◌≡◌};
    ghost use Rattle.graph_build.specs.declared.raw.GraphFault.TheVariants.{Memory};

    ghost from_gives = { λ _ e. e ≡ Memory };

    fn from(_: AllocError) -> GraphFault {
        GraphFault::Memory
    }
}
