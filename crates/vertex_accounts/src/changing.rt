//! Accounts of one job more, and of one less.
ghost use Rattle.std.specs.Prelude.{◌≡◌, ℕ, ◌+◌, ◌*◌, ◌<◌, ◌≤◌, List, [], ◌∷◌, ◌++◌, length, false, IfOk};
ghost use Rattle.flux_defs.specs.declared.claims.Job.{Job};
ghost use Rattle.book_laws.specs.TotalLaws.{AreFair};
ghost use Rattle.planner_points.specs.Work.{renew_cost};
ghost use Rattle.vertex_planners.specs.Lists.{items_of};
ghost use Rattle.vertex_planners.specs.Work.{CostWithin};
ghost use Rattle.std.specs.List.{AllByRecursion};
ghost use Rattle.vertex_accounts.specs.Books.{IsOnGraph, AreAccounts, HasTotals, HaveSameParts, types_of};
ghost use Rattle.vertex_accounts.specs.Books.{IsWider, HoldsNoWider, IsNarrower, CountsNoNarrower};
ghost use Rattle.vertex_accounts.specs.Costs.{accounts_most};

use crate::asking::upper;
use crate::books::Accounts;
use crate::counted::rows_of;
use flux_defs::{Claim, Job, Steps, Window};
use planner_points::{Planner, renew_with, renew_without};
use resource_graph::Graph;
use std::alloc::{AllocError, Global};
use std::sync::Arc;
use std::sync::ledger::Ledger;

impl<P: Planner + Drop> Accounts<P> {
    /// The same accounts once more, without a copy.
    pub fn share(&self) -> Result<Accounts<P>, AllocError>
        ensures { IfOk result (λ book. HaveSameParts self.now book) }
    {
        Ok(Accounts {
            counted: Arc::try_clone(&self.counted)?,
            planners: self.planners.share()?,
            times: self.times.share()?,
            count: self.count,
            widest: self.widest,
            narrowest: self.narrowest,
        })
    }

    /// The accounts of one job more, which oversubscribes no vertex beside the others. The planners that change are
    /// made ready before for questions from that second on. More claims than 2^64 - 1 are answered as want of memory.
    pub fn with_job<L: Ledger>(
        self,
        alloc: Global,
        graph: &Graph,
        moment: u64,
        job: &Job,
        steps: &mut Steps<L>,
    ) -> Result<Accounts<P>, AllocError>
        requires on_graph { IsOnGraph graph.now.resources.vertices job.now }
        requires there { (jobs : List Job)
            × AreAccounts P.total_of P.stands_for graph.now.resources.vertices jobs self
            × AreFair graph.now.resources.vertices (jobs ++ job.now ∷ []) }
        ensures accounts { IfOk result (λ book. (jobs : List Job) →
            AreAccounts P.total_of P.stands_for graph.now.resources.vertices jobs self →
            AreFair graph.now.resources.vertices (jobs ++ job.now ∷ []) →
            AreAccounts P.total_of P.stands_for graph.now.resources.vertices (jobs ++ job.now ∷ []) book) }
        ensures kinds { IfOk result (λ book. (kind : ℕ) → HasTotals self kind → HasTotals book kind) }
        ensures types { IfOk result (λ book. types_of book ≡ types_of self) }
        ensures work { (most : ℕ) → CostWithin
            (renew_cost P.settle_cost P.change_cost) most (items_of self.planners) → steps.new ≤ steps.old +
            (accounts_most (length graph.now.resources.vertices) most
            (types_of self) (length job.now.claims) + renew_cost P.settle_cost P.change_cost self.times) }
        ensures count { IfOk result (λ book. book.count ≡ self.count + length job.now.claims) }
    {
        graph.is_valid();
        let Some(count) = self.count.checked_add(job.claims.len() as u64) else {
            return Err(AllocError);
        };
        let window = Window {
            from: job.start,
            to: job.end,
        };
        let quantities = self.counted().quantities.items();
        let claims = job.claims.items();
        let rows = rows_of(alloc, graph, quantities, claims)?;
        let widest = self.widest_with(graph, claims);
        let narrowest = self.narrowest_with(graph, claims);
        let mut book = self;
        book.planners.gain(alloc, moment, window, rows, steps)?;
        renew_with(&mut book.times, alloc, moment, window, 0, steps)?;
        book.count = count;
        book.widest = widest;
        book.narrowest = narrowest;
        Ok(book)
    }

    /// How wide the vertices are at most that jobs hold, where one with these claims comes to the others.
    fn widest_with(&self, graph: &Graph, claims: &[Claim]) -> u32
        ensures { (self.now.widest ≤ result)
            × AllByRecursion (HoldsNoWider graph.now.resources.vertices result) claims.now }
    {
        let mut widest = self.widest;
        for at in 0..claims.len() {
            widest = widest.max(width_held(graph, &claims[at]));
        }
        widest
    }

    /// How wide the vertices are at least at which claims of jobs count, where a job with these comes to the others.
    fn narrowest_with(&self, graph: &Graph, claims: &[Claim]) -> u32
        ensures { (result ≤ self.now.narrowest)
            × AllByRecursion (CountsNoNarrower graph.now.resources.vertices result) claims.now }
    {
        let mut narrowest = self.narrowest;
        for at in 0..claims.len() {
            narrowest = narrowest.min(width_counted(graph, &claims[at]));
        }
        narrowest
    }

    /// The accounts of one job less. The planners that change are made ready before for questions from that second on.
    pub fn without_job<L: Ledger>(
        self,
        alloc: Global,
        graph: &Graph,
        moment: u64,
        job: &Job,
        steps: &mut Steps<L>,
    ) -> Result<Accounts<P>, AllocError>
        requires on_graph { IsOnGraph graph.now.resources.vertices job.now }
        requires there { (before : List Job) × (after : List Job)
            × AreAccounts P.total_of P.stands_for graph.now.resources.vertices (before ++ job.now ∷ after) self }
        ensures accounts { IfOk result (λ book. (before after : List Job) →
            AreAccounts P.total_of P.stands_for graph.now.resources.vertices (before ++ job.now ∷ after) self →
            AreAccounts P.total_of P.stands_for graph.now.resources.vertices (before ++ after) book) }
        ensures kinds { IfOk result (λ book. (kind : ℕ) → HasTotals self kind → HasTotals book kind) }
        ensures types { IfOk result (λ book. types_of book ≡ types_of self) }
        ensures work { (most : ℕ) → CostWithin
            (renew_cost P.settle_cost P.change_cost) most (items_of self.planners) → steps.new ≤ steps.old +
            (accounts_most (length graph.now.resources.vertices) most
            (types_of self) (length job.now.claims) + renew_cost P.settle_cost P.change_cost self.times) }
    {
        let count = self.count - job.claims.len() as u64;
        let window = Window {
            from: job.start,
            to: job.end,
        };
        let quantities = self.counted().quantities.items();
        let claims = job.claims.items();
        let rows = rows_of(alloc, graph, quantities, claims)?;
        let mut book = self;
        book.planners.lose(alloc, moment, window, rows, steps)?;
        renew_without(&mut book.times, alloc, moment, window, 0, steps)?;
        book.count = count;
        Ok(book)
    }
}

/// How many vertices are at or below the one that the claim holds; 0 where it holds none.
fn width_held(graph: &Graph, claim: &Claim) -> u32
    ensures { HoldsNoWider graph.now.resources.vertices result claim.now }
{
    match claim {
        Claim::Hold { vertex } => width_of(graph, *vertex),
        Claim::Take { .. } | Claim::Pass { .. } => 0,
    }
}

/// How many vertices are at or below the lowest one at which the claim counts: a hold counts only above the vertex that
/// it holds, unless that is the root.
fn width_counted(graph: &Graph, claim: &Claim) -> u32
    ensures { CountsNoNarrower graph.now.resources.vertices result claim.now }
{
    graph.is_valid();
    match claim {
        Claim::Hold { vertex } => width_of(graph, upper(graph, *vertex).unwrap_or(*vertex)),
        Claim::Take { vertex, .. } | Claim::Pass { vertex } => width_of(graph, *vertex),
    }
}

/// How many vertices are at or below this one.
fn width_of(graph: &Graph, vertex: u32) -> u32
    ensures no_wider { IsWider graph.now.resources.vertices result vertex → ⊥ }
    ensures no_narrower { IsNarrower graph.now.resources.vertices result vertex → ⊥ }
{
    if vertex >= graph.len() {
        return 0;
    }
    graph.past(vertex) - vertex
}
