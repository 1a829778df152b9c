//! What a jobspec asks for, as needs.
ghost use Rattle.std.specs.Prelude.{◌≡◌, IfOk};
ghost use Rattle.flux_defs.specs.Needs.{amount_of, kind_of};

use crate::lists::List;
use std::alloc::{AllocError, Global};

/// What is asked for of one kind of vertex (RFC 14).
#[derive(Debug, Drop)]
pub enum Need {
    /// `count` vertices of the kind, held whole where `hold` is true and else shared, each with the inner needs
    /// met below it.
    Vert {
        kind: u32,
        count: u64,
        hold: bool,
        needs: List<Need>,
    },
    /// `quantity` units that pools of the kind give together.
    Pool {
        kind: u32,
        quantity: u64,
    },
    /// `count` copies of the inner needs, each copy whole within one node.
    Spread {
        count: u64,
        needs: List<Need>,
    },
}

impl Need {
    /// Its count or quantity.
    pub fn amount(&self) -> u64
        ensures { result ≡ amount_of self.now }
    {
        match self {
            Need::Vert { count, .. } => *count,
            Need::Pool { quantity, .. } => *quantity,
            Need::Spread { count, .. } => *count,
        }
    }

    /// Its kind; none for a spread, which is of nodes.
    pub fn kind(&self) -> Option<u32>
        ensures { result ≡ kind_of self.now }
    {
        match self {
            Need::Vert { kind, .. } => Some(*kind),
            Need::Pool { kind, .. } => Some(*kind),
            Need::Spread { .. } => None,
        }
    }
}

/// A request: its needs, its duration in seconds (0 sets no limit) and the nodes that it must not touch, rising.
#[derive(Debug, Drop)]
pub struct Ask {
    pub needs: List<Need>,
    pub duration: u64,
    pub barred: List<u32>,
}

impl Ask {
    /// An equal request.
    pub fn copy(&self, alloc: Global) -> Result<Ask, AllocError>
        ensures { IfOk result (λ ask. ask ≡ self.now) }
    {
        Ok(Ask {
            needs: copy_needs(alloc, &self.needs)?,
            duration: self.duration,
            barred: List::of_vec(Vec::from_slice(alloc, self.barred.items())?),
        })
    }
}

#[cycle(copies)]
fn copy_needs(alloc: Global, needs: &List<Need>) -> Result<List<Need>, AllocError>
    ensures { IfOk result (λ copied. copied ≡ needs.now) }
{
    let mut copied = Vec::with_capacity(alloc, needs.len())?;
    for need in needs.items() {
        copied.push(copy_need(alloc, need)?)?;
    }
    Ok(List::of_vec(copied))
}

#[cycle(copies)]
fn copy_need(alloc: Global, need: &Need) -> Result<Need, AllocError>
    ensures { IfOk result (λ copied. copied ≡ need.now) }
{
    match need {
        Need::Vert {
            kind,
            count,
            hold,
            needs,
        } => Ok(Need::Vert {
            kind: *kind,
            count: *count,
            hold: *hold,
            needs: copy_needs(alloc, needs)?,
        }),
        Need::Pool { kind, quantity } => Ok(Need::Pool {
            kind: *kind,
            quantity: *quantity,
        }),
        Need::Spread { count, needs } => Ok(Need::Spread {
            count: *count,
            needs: copy_needs(alloc, needs)?,
        }),
    }
}
