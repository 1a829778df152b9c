//! How many vertices a resource set has, counted without expanding it.
ghost use Rattle.std.specs.Prelude.{◌≡◌, min};
ghost use Rattle.graph_from_r.specs.Sizes.{row_size, vertex_count};

use flux_defs::MOST_VERTICES;
use resource_set_r::{RRow, id_count};

/// The least number of vertices that is too many; greater ones are counted as this one.
const TOO_MANY: u128 = 65_537;

/// How many vertices an element has: for each rank its node, and the cores and gpus of that.
fn row_count(row: &RRow) -> u128
    ensures { result ≡ min (row_size row.now) 65537 }
{
    let ranks = id_count(row.ranks.items()).min(TOO_MANY);
    let cores = id_count(row.cores.items()).min(TOO_MANY);
    let gpus = id_count(row.gpus.items()).min(TOO_MANY);
    (ranks * (1 + cores + gpus)).min(TOO_MANY)
}

/// How many vertices the rows have with the cluster.
pub(crate) fn vertex_count(rows: &[RRow]) -> u128
    ensures { result ≡ min (vertex_count rows.now) 65537 }
{
    let mut count = 1;
    'rows: for row in rows {
        count = (count + row_count(row)).min(TOO_MANY);
    }
    count
}
