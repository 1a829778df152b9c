//! Preorder.
ghost use Rattle.std.specs.Prelude.{◌≡◌, ℕ, ◌<◌, ◌≤◌, length, slice_get, Some, IfOk};
ghost use Rattle.flux_defs.specs.declared.limits.TheConstants.{MOST_VERTICES};
ghost use Rattle.graph_build.specs.Orders.{IsRooted, IsPreorderOf, HasPaths, HasEnds, NoneIsEmpty};

use flux_defs::Vertex;
use resource_graph::chains::chain_up;
use std::alloc::{AllocError, Global};

/// The indices of the vertices in preorder, siblings by their indices in the list.
pub(crate) fn preorder_of(alloc: Global, vertices: &[Vertex]) -> Result<Vec<u32>, AllocError>
    requires few { length vertices.now ≤ MOST_VERTICES }
    requires rooted { IsRooted vertices.now }
    ensures { IfOk result (λ order. IsPreorderOf vertices.now order.items) }
{
    let mut paths = path_table(alloc, vertices)?;
    paths.sort()?;
    ends_of(alloc, paths.as_slice())
}

/// Each vertex's chain from the root down.
fn path_table(alloc: Global, vertices: &[Vertex]) -> Result<Vec<Vec<u32>>, AllocError>
    requires few { length vertices.now ≤ MOST_VERTICES }
    requires rooted { IsRooted vertices.now }
    ensures { IfOk result (λ paths. HasPaths vertices.now (length vertices.now) paths.items) }
{
    let mut paths = Vec::with_capacity(alloc, vertices.len())?;
    for v in 0..vertices.len() {
        let mut path = chain_up(alloc, vertices, v as u32)?;
        path.reverse();
        paths.push(path)?;
    }
    Ok(paths)
}

/// The last number of each list.
fn ends_of(alloc: Global, lists: &[Vec<u32>]) -> Result<Vec<u32>, AllocError>
    requires { NoneIsEmpty lists.now }
    ensures { IfOk result (λ ends. HasEnds lists.now (length lists.now) ends.items) }
{
    let mut ends = Vec::with_capacity(alloc, lists.len())?;
    for list in lists {
        ends.push(list[list.len() - 1])?;
    }
    Ok(ends)
}
