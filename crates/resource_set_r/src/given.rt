//! The vertices that have a claim or lie at or below a held vertex.
ghost use Rattle.std.specs.Prelude.{◌≡◌, IfOk, OnOk};
ghost use Rattle.std.specs.List.{fold};
ghost use Rattle.std.specs.Ordering.{nat_cmp};
ghost use Rattle.std.specs.BTreeSet.{insert_key};
ghost use Rattle.resource_set_r.specs.Rows.{given_by, given, rising};

use crate::sets::{add, add_all, in_order};
use flux_defs::{Claim, List};
use resource_graph::Graph;
use std::alloc::{AllocError, Global};

/// Adds what a claim gives.
fn add_given(numbers: &mut Vec<u32>, graph: &Graph, claim: &Claim) -> Result<(), AllocError>
    ensures { OnOk result
        (rising numbers.new.items ≡ fold (insert_key nat_cmp) (rising numbers.old.items)
        (given_by graph.now.resources.vertices claim.now)) }
{
    let vertex = claim.vertex();
    if vertex as usize >= graph.vertices().len() {
        return Ok(());
    }
    match claim {
        Claim::Hold { .. } => add_all(numbers, vertex, graph.past(vertex)),
        Claim::Take { .. } => add(numbers, vertex),
        Claim::Pass { .. } => add(numbers, vertex),
    }
}

/// What the claims give, in preorder.
pub(crate) fn given_of(
    alloc: Global,
    graph: &Graph,
    claims: &[Claim],
) -> Result<List<u32>, AllocError>
    ensures { IfOk result (λ list. list ≡ given graph.now.resources.vertices claims.now) }
{
    let mut numbers = Vec::with_capacity(alloc, claims.len())?;
    'claims: for claim in claims {
        add_given(&mut numbers, graph, claim)?;
    }
    in_order(alloc, numbers)
}
