//! Chains of parents.
ghost use Rattle.std.specs.Prelude.{◌≡◌, ◌<◌, ◌≤◌, length, IfOk, OnOk};
ghost use Rattle.flux_defs.specs.declared.limits.TheConstants.{MOST_LEVELS};
ghost use Rattle.resource_graph.specs.Chains.{chain_of, KnowsParents, AllBelow};

use flux_defs::{MOST_LEVELS, Vertex};
use std::alloc::{AllocError, Global};

/// The vertex and those above it, up to the root.
pub fn chain_up(alloc: Global, vertices: &[Vertex], vertex: u32) -> Result<Vec<u32>, AllocError>
    requires known { KnowsParents vertices.now }
    requires vertex_in { vertex < length vertices.now }
    requires short { length (chain_of vertices.now vertex) ≤ MOST_LEVELS }
    ensures chain { IfOk result (λ chain. chain.items ≡ chain_of vertices.now vertex) }
    ensures below { IfOk result (λ chain. AllBelow (length vertices.now) chain.items) }
{
    let mut chain = Vec::with_capacity(alloc, vertices.len().min(MOST_LEVELS))?;
    chain_into(&mut chain, vertices, vertex)?;
    Ok(chain)
}

/// The same, in the place of what the list held.
pub fn chain_into(chain: &mut Vec<u32>, vertices: &[Vertex], vertex: u32) -> Result<(), AllocError>
    requires known { KnowsParents vertices.now }
    requires vertex_in { vertex < length vertices.now }
    requires short { length (chain_of vertices.now vertex) ≤ MOST_LEVELS }
    ensures chain { OnOk result (chain.new.items ≡ chain_of vertices.now vertex) }
    ensures below { OnOk result (AllBelow (length vertices.now) chain.new.items) }
{
    let most = vertices.len().min(MOST_LEVELS);
    chain.clear();
    let mut at = Some(vertex);
    while chain.len() < most {
        let Some(v) = at else { break };
        chain.push(v)?;
        at = vertices[v as usize].parent;
    }
    Ok(())
}
