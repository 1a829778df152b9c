//! The names of nodes, and which of them are repeated.
ghost use Rattle.std.specs.Prelude.{◌≡◌, IfOk};
ghost use Rattle.idset_text.specs.Hostlists.{digits_of, host_number};
ghost use Rattle.graph_from_r.specs.Names.{base_of, number_of_name, IsRepeatedName};

use crate::nodes::RNode;
use idset_text::{number_of_host, parts};
use std::alloc::{AllocError, Global};
use text_table::TextTable;

/// The basename of a node: its name without its longest end of digits, or `node` where nothing is left.
pub(crate) fn base_of(name: &[u8]) -> &[u8]
    ensures { result.now ≡ base_of name.now }
{
    let (prefix, _) = parts(name);
    if prefix.is_empty() { b"node" } else { prefix }
}

/// The number at the end of a node's name, where that has 1 to 9 digits.
pub(crate) fn number_of_name(name: &[u8]) -> Option<u32>
    ensures { result ≡ number_of_name name.now }
{
    let (_, digits) = parts(name);
    number_of_host(digits)
}

/// The rank of the first node whose name an earlier one has.
pub(crate) fn repeated_name(alloc: Global, nodes: &[RNode]) -> Result<Option<u32>, AllocError>
    ensures { IfOk result (λ found. IsRepeatedName nodes.now found) }
{
    let mut seen = TextTable::with_capacity(alloc, nodes.len())?;
    'nodes: for node in nodes {
        let name = node.name.bytes();
        if seen.number_of(name).is_some() {
            return Ok(Some(node.rank));
        }
        seen.add(alloc, name)?;
    }
    Ok(None)
}
