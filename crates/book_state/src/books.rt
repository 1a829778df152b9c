//! The book of jobs.
ghost use Rattle.std.specs.Prelude.{◌≡◌, ◌↔◌, ℕ, ◌+◌, ◌*◌, ◌<◌, ◌≤◌, ◌∷◌, ◌++◌, [], List, Some, length, slice_get};
ghost use Rattle.std.specs.Prelude.{Contains, IsTrue, IfOk};
ghost use Rattle.std.specs.Arc.{arc_value};
ghost use Rattle.std.specs.FinMap as map;
ghost use Rattle.flux_defs.specs.declared.claims.Job.{Job};
ghost use Rattle.flux_defs.specs.Digits.{dig};
ghost use Rattle.flux_defs.specs.Scheduler.{without_job};
ghost use Rattle.job_table.specs.Rows.{live_row, cancelled_row, HasLiveRow};
ghost use Rattle.prune_filters.specs.Filters.{IsCounted};
ghost use Rattle.planner_min_tree.specs.Plans as Plans;
ghost use Rattle.planner_min_tree.specs.Plans.{Plan};
ghost use Rattle.vertex_accounts.specs.Books.{AreAccounts, HasTotals, HaveSameParts, types_of};
ghost use Rattle.book_state.specs.Ties.{has_job};
ghost use Rattle.book_state.specs.Books.{graph_of, rules_of, horizon_of, moment_of, rows_of, StandsFor, HaveOneSetting};
ghost use Rattle.book_state.specs.Books.{accounts_of, MayAdd, change_cost_of};

use crate::frames::Frame;
use crate::held::{BookState, Kept};
use flux_defs::{Job, Steps};
use job_table::Row;
use planner_min_tree::MinTree;
use prune_filters::Rules;
use resource_graph::Graph;
use std::alloc::{AllocError, Global};
use std::marker::Brand;
use std::sync::Arc;
use std::sync::ledger::{Blank, Ledger};
use vertex_accounts::Accounts;

impl BookState {
    /// The book without jobs, at moment 0.
    pub fn new(
        alloc: Global,
        graph: Arc<Graph, Global>,
        rules: Rules,
        horizon: u64,
    ) -> Result<BookState, AllocError>
        ensures graph { IfOk result (λ book. graph_of book ≡ arc_value graph) }
        ensures rules { IfOk result (λ book. rules_of book ≡ rules) }
        ensures horizon { IfOk result (λ book. horizon_of book ≡ horizon) }
        ensures moment { IfOk result (λ book. moment_of book ≡ 0) }
        ensures rows { IfOk result (λ book. rows_of book ≡ map.empty) }
        ensures jobs { IfOk result (λ book. StandsFor book []) }
    {
        let frame = Frame::of(alloc, graph, rules, horizon)?;
        frame.book(alloc)
    }

    /// The present moment. It takes no memory.
    pub fn now(&self) -> u64
        ensures { result ≡ moment_of self.now }
    {
        self.kept.moment
    }

    /// The row of the job with this id, and `None` exactly where none was ever accepted. A live row is that of a job
    /// which the book stands for. It takes no memory.
    pub fn find<L: Ledger>(&self, id: u64, steps: &mut Steps<L>) -> Option<Row>
        ensures row { result ≡ map.get (rows_of self.now) id }
        ensures live { (jobs : List Job) →
            StandsFor self.now jobs → (HasLiveRow (rows_of self.now) id ↔ IsTrue (has_job jobs id)) }
        ensures work { steps.new ≤ steps.old + 16 * dig (map.len (rows_of self.now) + 2) }
    {
        self.kept.table.find(id, steps)
    }

    /// The same book, without a copy.
    pub fn share(&self) -> Result<BookState, AllocError>
        ensures setting { IfOk result (λ book. HaveOneSetting self.now book) }
        ensures moment { IfOk result (λ book. moment_of book ≡ moment_of self.now) }
        ensures rows { IfOk result (λ book. rows_of book ≡ rows_of self.now) }
        ensures jobs { IfOk result (λ book. (jobs : List Job) → StandsFor self.now jobs → StandsFor book jobs) }
        ensures count { IfOk result (λ book. (accounts_of book).count ≡ (accounts_of self.now).count) }
        ensures parts { IfOk result (λ book. HaveSameParts (accounts_of self.now) (accounts_of book)) }
    {
        Ok(BookState {
            kept: Kept {
                filtered: Arc::try_clone(&self.kept.filtered)?,
                horizon: self.kept.horizon,
                moment: self.kept.moment,
                accounts: self.kept.accounts.share()?,
                table: self.kept.table.share()?,
            },
        })
    }

    /// The book at another moment, beside this one.
    pub fn after_advance(&self, to: u64) -> Result<BookState, AllocError>
        ensures setting { IfOk result (λ book. HaveOneSetting self.now book) }
        ensures moment { IfOk result (λ book. moment_of book ≡ to) }
        ensures rows { IfOk result (λ book. rows_of book ≡ rows_of self.now) }
        ensures jobs { IfOk result (λ book. (jobs : List Job) → StandsFor self.now jobs → StandsFor book jobs) }
    {
        let same = self.share()?;
        Ok(same.into_advanced(to))
    }

    /// The book at another moment. It takes no memory.
    pub fn into_advanced(self, to: u64) -> BookState
        ensures setting { HaveOneSetting self result }
        ensures moment { moment_of result ≡ to }
        ensures rows { rows_of result ≡ rows_of self }
        ensures jobs { (jobs : List Job) → StandsFor self jobs → StandsFor result jobs }
    {
        let Kept {
            filtered,
            horizon,
            accounts,
            table,
            ..
        } = self.kept;
        BookState {
            kept: Kept {
                filtered,
                horizon,
                moment: to,
                accounts,
                table,
            },
        }
    }

    /// The book with one job more, which the journal's entry at place `at` accepted, beside this one. It costs by the
    /// job's claims and the rules, whatever the graph's size.
    pub fn after_add<L: Ledger>(
        &self,
        alloc: Global,
        job: &Job,
        at: u64,
        steps: &mut Steps<L>,
    ) -> Result<BookState, AllocError>
        requires { MayAdd self.now job.now }
        ensures setting { IfOk result (λ book. HaveOneSetting self.now book) }
        ensures moment { IfOk result (λ book. moment_of book ≡ moment_of self.now) }
        ensures rows { IfOk result (λ book. rows_of book ≡ map.insert (rows_of self.now) job.now.id (live_row at)) }
        ensures jobs { IfOk result
            (λ book. (jobs : List Job) → StandsFor self.now jobs → StandsFor book (jobs ++ job.now ∷ [])) }
        ensures work { steps.new ≤ steps.old + change_cost_of self.now (length job.now.claims) }
    {
        let same = self.share()?;
        same.into_added(alloc, job, at, steps)
    }

    /// The book with one job more, which the journal's entry at place `at` accepted. It costs by the job's claims and
    /// the rules, whatever the graph's size.
    pub fn into_added<L: Ledger>(
        self,
        alloc: Global,
        job: &Job,
        at: u64,
        steps: &mut Steps<L>,
    ) -> Result<BookState, AllocError>
        requires { MayAdd self job.now }
        ensures setting { IfOk result (λ book. HaveOneSetting self book) }
        ensures moment { IfOk result (λ book. moment_of book ≡ moment_of self) }
        ensures rows { IfOk result (λ book. rows_of book ≡ map.insert (rows_of self) job.now.id (live_row at)) }
        ensures jobs { IfOk result
            (λ book. (jobs : List Job) → StandsFor self jobs → StandsFor book (jobs ++ job.now ∷ [])) }
        ensures work { steps.new ≤ steps.old + change_cost_of self (length job.now.claims) }
    {
        let Kept {
            filtered,
            horizon,
            moment,
            accounts,
            table,
        } = self.kept;
        let accounts = accounts.with_job(alloc, filtered.graph(), moment, job, steps)?;
        let table = table.into_new(alloc, job.id, at, steps)?;
        Ok(BookState {
            kept: Kept {
                filtered,
                horizon,
                moment,
                accounts,
                table,
            },
        })
    }

    /// The book without this job, whose row is then not live, beside this one. It costs as the job's addition does.
    pub fn after_remove<L: Ledger>(
        &self,
        alloc: Global,
        job: &Job,
        steps: &mut Steps<L>,
    ) -> Result<BookState, AllocError>
        requires there { (jobs : List Job) × StandsFor self.now jobs × Contains jobs job.now }
        requires live { HasLiveRow (rows_of self.now) job.now.id }
        ensures setting { IfOk result (λ book. HaveOneSetting self.now book) }
        ensures moment { IfOk result (λ book. moment_of book ≡ moment_of self.now) }
        ensures rows { IfOk result (λ book. (at : ℕ) → map.get (rows_of self.now) job.now.id ≡ Some (live_row at) →
            rows_of book ≡ map.insert (rows_of self.now) job.now.id (cancelled_row at)) }
        ensures jobs { IfOk result (λ book. (jobs : List Job) →
            StandsFor self.now jobs → Contains jobs job.now → StandsFor book (without_job job.now.id jobs)) }
        ensures once { IfOk result (λ book. (before after : List Job) →
            StandsFor self.now (before ++ job.now ∷ after) → StandsFor book (before ++ after)) }
        ensures work { steps.new ≤ steps.old + change_cost_of self.now (length job.now.claims) }
    {
        let same = self.share()?;
        same.into_removed(alloc, job, steps)
    }

    /// The book without this job, whose row is then not live. It costs as the job's addition does.
    pub fn into_removed<L: Ledger>(
        self,
        alloc: Global,
        job: &Job,
        steps: &mut Steps<L>,
    ) -> Result<BookState, AllocError>
        requires there { (jobs : List Job) × StandsFor self jobs × Contains jobs job.now }
        requires live { HasLiveRow (rows_of self) job.now.id }
        ensures setting { IfOk result (λ book. HaveOneSetting self book) }
        ensures moment { IfOk result (λ book. moment_of book ≡ moment_of self) }
        ensures rows { IfOk result (λ book. (at : ℕ) → map.get (rows_of self) job.now.id ≡ Some (live_row at) →
            rows_of book ≡ map.insert (rows_of self) job.now.id (cancelled_row at)) }
        ensures jobs { IfOk result (λ book. (jobs : List Job) →
            StandsFor self jobs → Contains jobs job.now → StandsFor book (without_job job.now.id jobs)) }
        ensures once { IfOk result (λ book. (before after : List Job) →
            StandsFor self (before ++ job.now ∷ after) → StandsFor book (before ++ after)) }
        ensures work { steps.new ≤ steps.old + change_cost_of self (length job.now.claims) }
    {
        let Kept {
            filtered,
            horizon,
            moment,
            accounts,
            table,
        } = self.kept;
        let accounts = accounts.without_job(alloc, filtered.graph(), moment, job, steps)?;
        let table = table.into_cancelled(alloc, job.id, steps)?;
        Ok(BookState {
            kept: Kept {
                filtered,
                horizon,
                moment,
                accounts,
                table,
            },
        })
    }
}

/// The accounts of no jobs. Their making isn't counted.
pub(crate) fn first_accounts(
    alloc: Global,
    graph: &Graph,
    rules: &Rules,
    horizon: u64,
) -> Result<Accounts<MinTree>, AllocError>
    ensures accounts { IfOk result
        (λ book. AreAccounts (λ (p : Plan). p.total) Plans.StandsFor graph.now.resources.vertices [] book) }
    ensures kinds { IfOk result (λ book. (kind : ℕ) (name : List ℕ) →
        slice_get graph.now.resources.kinds kind ≡ Some name → IsCounted rules.now name → HasTotals book kind) }
    ensures types { IfOk result (λ book. types_of book ≤ length rules.now) }
{
    counted_accounts::<Brand>(alloc, graph, rules, horizon, Blank::new(1))
}

fn counted_accounts<L: Ledger>(
    alloc: Global,
    graph: &Graph,
    rules: &Rules,
    horizon: u64,
    blank: Blank,
) -> Result<Accounts<MinTree>, AllocError>
    requires name { blank.name ≡ L.name }
    requires parts { blank.parts ≡ L.parts }
    requires some { 0 < blank.parts }
    ensures accounts { IfOk result
        (λ book. AreAccounts (λ (p : Plan). p.total) Plans.StandsFor graph.now.resources.vertices [] book) }
    ensures kinds { IfOk result (λ book. (kind : ℕ) (name : List ℕ) →
        slice_get graph.now.resources.kinds kind ≡ Some name → IsCounted rules.now name → HasTotals book kind) }
    ensures types { IfOk result (λ book. types_of book ≤ length rules.now) }
{
    let mut steps: Steps<L> = Steps::new(blank);
    Accounts::new(alloc, graph, rules, horizon, &mut steps)
}
