//! Why bytes are no graph file.
use flux_defs::Text;
use graph_build::GraphFault;
use json_whole::FieldFault;
use std::alloc::AllocError;

/// Why bytes are no graph file: the first of these that holds, in the order of the file.
#[derive(Debug, Drop)]
pub enum ReadFault {
    /// The bytes are no JSON text (RFC 8259).
    NotJson,
    /// The field at the path is missing or breaks the rule of its key. The path begins at the whole text, as
    /// `graph.nodes[0].metadata.type`; that of the whole text is `.`.
    Field { path: Text, fault: FieldFault },
    /// An earlier node has the id of the node with this index.
    DuplicateNode { at: u64 },
    /// The edge with this index is none of containment, or has an end that is no node, or an earlier edge has its
    /// target.
    Edge { at: u64 },
    /// The nodes and edges are no resource graph; a vertex is the index of its node.
    Graph(GraphFault),
    /// Want of memory.
    Memory,
}

impl From<AllocError> for ReadFault {
    ghost use Rattle.std.specs.Prelude.{◌≡◌};
    ghost use Rattle.graph_json.specs.declared.faults.ReadFault.TheVariants.{Memory};

    ghost from_gives = { λ _ e. e ≡ Memory };

    fn from(_: AllocError) -> ReadFault {
        ReadFault::Memory
    }
}
