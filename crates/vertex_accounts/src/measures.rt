//! What a claim amounts to: for who holds, who has a claim, what is taken, and what is left of a type.
ghost use Rattle.std.specs.Prelude.{◌≡◌, ℕ, List};
ghost use Rattle.flux_defs.specs.declared.claims.Claim.{Claim};
ghost use Rattle.book_laws.specs.Amounts.{part_of};
ghost use Rattle.vertex_accounts.specs.Measures.{hold_amount, take_amount};
ghost use Rattle.vertex_accounts.specs.Capacities.{AreOf};

use crate::capacities::Capacities;
use flux_defs::Claim;
use resource_graph::Graph;
use vertex_planners::Measure;

/// 1 for a hold, and 0 for every other claim.
#[derive(Clone, Copy, Debug)]
pub struct Holds;

impl Measure for Holds {
    ghost amount = { λ _. hold_amount };

    fn amount_of(&self, claim: &Claim) -> u64 {
        match claim {
            Claim::Hold { .. } => 1,
            Claim::Take { .. } => 0,
            Claim::Pass { .. } => 0,
        }
    }
}

/// The quantity of a take, and 0 for every other claim.
#[derive(Clone, Copy, Debug)]
pub struct Takes;

impl Measure for Takes {
    ghost amount = { λ _. take_amount };

    fn amount_of(&self, claim: &Claim) -> u64 {
        match claim {
            Claim::Take { quantity, .. } => *quantity,
            Claim::Hold { .. } => 0,
            Claim::Pass { .. } => 0,
        }
    }
}

/// 1 for each claim.
#[derive(Clone, Copy, Debug)]
pub struct Each;

impl Measure for Each {
    ghost amount = { λ _ _. 1 };

    fn amount_of(&self, _claim: &Claim) -> u64 {
        1
    }
}

/// What a claim has of a type: a hold the capacity at its vertex, a take of a pool of the type its quantity.
#[derive(Drop)]
pub struct Parts<'a> {
    pub graph: &'a Graph,
    pub capacities: &'a Capacities,
    ghost of_graph: { AreOf graph.now.resources.vertices capacities.now.kind capacities.now },
}

impl<'a> Measure for Parts<'a> {
    ghost amount = { λ parts. part_of parts.graph.now.resources.vertices parts.capacities.now.kind };

    fn amount_of(&self, claim: &Claim) -> u64 {
        match claim {
            Claim::Take { vertex, quantity } => return self.part_taken(*vertex, *quantity),
            Claim::Hold { vertex } => return self.capacities.at(self.graph, *vertex),
            Claim::Pass { .. } => return 0,
        }
    }
}

impl<'a> Parts<'a> {
    ghost use Rattle.std.specs.Prelude.{if◌then◌else◌};
    ghost use Rattle.book_laws.specs.Amounts.{is_of_kind};

    /// The quantity, where the vertex is of the type.
    fn part_taken(&self, vertex: u32, quantity: u64) -> u64
        ensures { result ≡ (if is_of_kind self.now.graph.now.resources.vertices self.now.capacities.now.kind vertex
            then quantity else 0) }
    {
        match self.graph.vertices().get(vertex as usize) {
            Some(found) => {
                if found.kind == self.capacities.kind {
                    return quantity;
                }
                return 0;
            }
            None => return 0,
        }
    }
}
