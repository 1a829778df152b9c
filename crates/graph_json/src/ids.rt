//! The ids of a graph file's nodes, looked up.
ghost use Rattle.std.specs.Prelude.{◌≡◌, ◌<◌, [], ◌∷◌, ◌++◌, not, ℕ, map, IsTrue, IfOk, MatchResult};
ghost use Rattle.graph_json.specs.Nodes.{node_held, id_bytes};
ghost use Rattle.graph_json.specs.Edges.{is_among};
ghost use Rattle.graph_json.specs.Ids.{ids_of, IsRepeated, IsSetOf};
ghost use Rattle.resource_graph.specs.Finds.{IsLeast};

use crate::fields::NodeId;
use crate::nodes::NodeFields;
use std::alloc::{AllocError, Global};
use text_table::TextTable;

/// Adds a text to the table, and says whether it is new.
fn add_new(alloc: Global, table: &mut TextTable, text: &[u8]) -> Result<bool, AllocError>
    ensures new { IfOk result (λ new. new ≡ not (is_among table.old text.now)) }
    ensures added { IfOk result (λ new. IsTrue new → table.new ≡ table.old ++ text.now ∷ []) }
{
    let before = table.len();
    let number = table.add(alloc, text)?;
    Ok(number == before)
}

/// Adds the id to the table, and says whether it is new.
fn add_id(alloc: Global, table: &mut TextTable, id: NodeId) -> Result<bool, AllocError>
    ensures new { IfOk result (λ new. new ≡ not (is_among table.old (id_bytes id.entry))) }
    ensures added { IfOk result (λ new. IsTrue new → table.new ≡ table.old ++ id_bytes id.entry ∷ []) }
{
    match id {
        NodeId::Written(text) => add_new(alloc, table, text.as_bytes()),
        NodeId::Numbered(number) => {
            let mut buffer = itoa::Buffer::new();
            let digits = buffer.format(number);
            add_new(alloc, table, digits.as_bytes())
        }
    }
}

/// The ids of the nodes, or the index of the first node whose id an earlier one has.
pub(crate) fn id_table(
    alloc: Global,
    nodes: &[NodeFields],
) -> Result<Result<TextTable, u64>, AllocError>
    ensures { IfOk result (λ table. MatchResult table
        (IsSetOf (ids_of (map node_held nodes.now))) (IsLeast (IsRepeated (ids_of (map node_held nodes.now))))) }
{
    let mut table = TextTable::with_capacity(alloc, nodes.len())?;
    'nodes: for (at, node) in nodes.iter().enumerate() {
        if !add_id(alloc, &mut table, node.id)? {
            return Ok(Err(at as u64));
        }
    }
    Ok(Ok(table))
}
