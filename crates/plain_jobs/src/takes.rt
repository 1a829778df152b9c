//! How much jobs take of a pool.
ghost use Rattle.std.specs.Prelude.{◌≡◌, ◌<◌, min, sum_by};
ghost use Rattle.flux_defs.specs.Jobs.{take_of};
ghost use Rattle.flux_defs.specs.Free.{taken_at};
ghost use Rattle.plain_jobs.specs.Spans.{IsMostTaken, Raises};

use flux_defs::{Claim, Job, Window};

fn taken_from(claim: &Claim, vertex: u32) -> u64
    ensures { result ≡ take_of vertex claim.now }
{
    match claim {
        Claim::Take {
            vertex: on,
            quantity,
        } => { if *on == vertex { *quantity } else { 0 } }
        Claim::Hold { .. } | Claim::Pass { .. } => 0,
    }
}

/// What the claims take of the vertex, at most 2^64 - 1.
fn taken_by(claims: &[Claim], vertex: u32) -> u64
    ensures { result ≡ min (sum_by (take_of vertex) claims.now) u64.MAX }
{
    let mut sum = 0u64;
    for claim in claims {
        sum = sum.saturating_add(taken_from(claim, vertex));
    }
    sum
}

/// What is taken of the vertex at the moment, at most 2^64 - 1.
fn taken(jobs: &[Job], moment: u64, vertex: u32) -> u64
    ensures { result ≡ min (taken_at jobs.now moment vertex) u64.MAX }
{
    let mut sum = 0u64;
    for job in jobs {
        if job.start <= moment && moment < job.end {
            sum = sum.saturating_add(taken_by(job.claims.items(), vertex));
        }
    }
    sum
}

/// The most that is taken of the vertex at a moment of the window, at most 2^64 - 1: it is reached where the window or
/// a job begins.
pub fn most_taken(jobs: &[Job], window: Window, vertex: u32) -> u64
    requires { window.from < window.to }
    ensures { IsMostTaken jobs.now window vertex u64.MAX result }
{
    let mut most = taken(jobs, window.from, vertex);
    for job in jobs {
        most = raised(jobs, window, vertex, most, job);
    }
    most
}

/// The most so far, raised by what is taken at the job's start.
fn raised(jobs: &[Job], window: Window, vertex: u32, most: u64, job: &Job) -> u64
    ensures { Raises jobs.now window vertex u64.MAX most job.now result }
{
    if window.from <= job.start && job.start < window.to {
        return most.max(taken(jobs, job.start, vertex));
    }
    most
}
