//! Why bytes are no graph.
use resource_set_r::RFault;
use std::alloc::AllocError;

/// Why the bytes of a resource set give no graph: the first of these that holds.
#[derive(Debug, Drop)]
pub enum LoadFault {
    /// They are no resource set; want of memory is not told so.
    R(RFault),
    /// No rank is listed.
    NoRanks,
    /// More than 65,536 vertices.
    Large,
    /// The properties are no object from names to idsets.
    Property,
    /// The least rank whose host has the name of that of a lesser rank.
    Name { rank: u32 },
    /// Want of memory.
    Memory,
}

impl From<AllocError> for LoadFault {
    ghost use Rattle.std.specs.Prelude.{◌≡◌};
    ghost use Rattle.graph_from_r.specs.declared.faults.LoadFault.TheVariants.{Memory};

    ghost from_gives = { λ _ e. e ≡ Memory };

    fn from(_: AllocError) -> LoadFault {
        LoadFault::Memory
    }
}
