//! What a job has of the graph, and when.
ghost use Rattle.std.specs.Prelude.{◌≡◌, IfOk};
ghost use Rattle.flux_defs.specs.Jobs.{vertex_of};

use crate::lists::List;
use std::alloc::{AllocError, Global};

/// What a job has of one vertex.
#[derive(Clone, Copy, Debug, PartialEq, Eq)]
pub enum Claim {
    /// So many units of a pool.
    Take { vertex: u32, quantity: u64 },
    /// The vertex with all that is below it, for this job alone.
    Hold { vertex: u32 },
    /// The vertex shared with other jobs.
    Pass { vertex: u32 },
}

impl Claim {
    /// The vertex that it is on.
    pub fn vertex(&self) -> u32
        ensures { result ≡ vertex_of self.now }
    {
        match self {
            Claim::Take { vertex, .. } => *vertex,
            Claim::Hold { vertex } => *vertex,
            Claim::Pass { vertex } => *vertex,
        }
    }
}

/// The seconds from `from` on and before `to`.
#[derive(Clone, Copy, Debug, PartialEq, Eq)]
pub struct Window {
    pub from: u64,
    pub to: u64,
}

/// An accepted job: its id, the seconds from `start` on and before `end`, and its claims.
#[derive(Debug, Drop)]
pub struct Job {
    pub id: u64,
    pub start: u64,
    pub end: u64,
    pub claims: List<Claim>,
}

impl Job {
    /// An equal job.
    pub fn copy(&self, alloc: Global) -> Result<Job, AllocError>
        ensures { IfOk result (λ job. job ≡ self.now) }
    {
        Ok(Job {
            id: self.id,
            start: self.start,
            end: self.end,
            claims: List::of_vec(Vec::from_slice(alloc, self.claims.items())?),
        })
    }
}
