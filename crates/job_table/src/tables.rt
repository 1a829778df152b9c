//! The table of jobs.
ghost use Rattle.std.specs.Prelude.{◌≡◌, ℕ, ◌+◌, ◌*◌, ◌≤◌, None, Some, IfOk, OnOk, OnErr};
ghost use Rattle.std.specs.FinMap as map;
ghost use Rattle.flux_defs.specs.Digits.{dig};
ghost use Rattle.job_table.specs.Rows.{live_row, cancelled_row, HasLiveRow};

use crate::parts::Part;
use flux_defs::Steps;
use node_store::{Share, Vacant};
use std::alloc::{AllocError, Global};
use std::marker::Model;
use std::sync::ledger::Ledger;

/// Where the journal's entry stands that accepted the job, and whether the job was not cancelled since.
#[derive(Clone, Copy, Debug, PartialEq, Eq)]
pub struct Row {
    pub at: u64,
    pub live: bool,
}

/// A map from ids of jobs to rows, as a shared tree. No table changes: a call that changes something gives a new one.
/// The calls that begin with `with` keep the old one too, and hold in common with it what the change doesn't lead
/// through.
///
/// A look at a row takes at most a step for each of the 16 hexadecimal digits of an id. Where the last digits of n ids
/// are spread it takes about as many as n has hexadecimal digits, as for ids that count up.
#[derive(Drop)]
pub struct JobTable {
    root: Part,
}

impl Model for JobTable {
    ghost use Rattle.std.specs.Ordering.{nat_cmp};
    ghost use Rattle.std.specs.FinMap as map;
    ghost use Rattle.std.specs.Coded.{coded_ℕ};
    ghost use Rattle.job_table.specs.declared.tables.Row.{Row};
    ghost use Rattle.job_table.specs.Rows.{row_code};
    ghost use Rattle.job_table.specs.Parts.{IsPart};

    ghost Value = { map.FinMap nat_cmp Row };

    ghost coded = { map.code coded_ℕ row_code };

    ghost view = { λ table. map.from_entries table.root.0 };

    ghost invariant = { λ table. IsPart 16 table.root };
}

impl JobTable {
    /// The table without rows. It takes no memory.
    pub fn empty() -> JobTable
        ensures { result ≡ map.empty }
    {
        JobTable {
            root: Part::vacant(),
        }
    }

    /// The row of the id, and `None` exactly where it has none. It takes no memory.
    pub fn find<L: Ledger>(&self, id: u64, steps: &mut Steps<L>) -> Option<Row>
        ensures row { result ≡ map.get self.now id }
        ensures work { steps.new ≤ steps.old + 16 * dig (map.len self.now + 2) }
    {
        self.root.find(id, steps)
    }

    /// The same table, without a copy.
    pub fn share(&self) -> Result<JobTable, AllocError>
        ensures { IfOk result (λ table. table ≡ self.now) }
    {
        let root = self.root.share()?;
        Ok(JobTable { root })
    }

    /// The table with a live row for a new id, whose job the entry at place `at` accepted. What no other table shares
    /// is written in place. Where no memory is left there is no table.
    pub fn into_new<L: Ledger>(
        self,
        alloc: Global,
        id: u64,
        at: u64,
        steps: &mut Steps<L>,
    ) -> Result<JobTable, AllocError>
        requires { map.get self id ≡ None }
        ensures added { IfOk result (λ table. table ≡ map.insert self id (live_row at)) }
        ensures work { steps.new ≤ steps.old + 256 * dig (map.len self + 2) }
    {
        self.into_row(alloc, id, Row { at, live: true }, steps)
    }

    /// The table in which the id's row is not live, made as by `into_new`.
    pub fn into_cancelled<L: Ledger>(
        self,
        alloc: Global,
        id: u64,
        steps: &mut Steps<L>,
    ) -> Result<JobTable, AllocError>
        requires { HasLiveRow self id }
        ensures cancelled { IfOk result (λ table. (at : ℕ) → map.get self id ≡ Some (live_row at) →
            table ≡ map.insert self id (cancelled_row at)) }
        ensures work { steps.new ≤ steps.old + 256 * dig (map.len self + 2) }
    {
        let Some(row) = self.find(id, steps) else {
            unreachable!()
        };
        let cancelled = Row {
            at: row.at,
            live: false,
        };
        self.into_row(alloc, id, cancelled, steps)
    }

    /// The table with a live row for a new id, beside this one.
    pub fn with_new<L: Ledger>(
        &self,
        alloc: Global,
        id: u64,
        at: u64,
        steps: &mut Steps<L>,
    ) -> Result<JobTable, AllocError>
        requires { map.get self.now id ≡ None }
        ensures added { IfOk result (λ table. table ≡ map.insert self.now id (live_row at)) }
        ensures work { steps.new ≤ steps.old + 256 * dig (map.len self.now + 2) }
    {
        let same = self.share()?;
        same.into_new(alloc, id, at, steps)
    }

    /// The table in which the id's row is not live, beside this one.
    pub fn with_cancelled<L: Ledger>(
        &self,
        alloc: Global,
        id: u64,
        steps: &mut Steps<L>,
    ) -> Result<JobTable, AllocError>
        requires { HasLiveRow self.now id }
        ensures cancelled { IfOk result (λ table. (at : ℕ) → map.get self.now id ≡ Some (live_row at) →
            table ≡ map.insert self.now id (cancelled_row at)) }
        ensures work { steps.new ≤ steps.old + 256 * dig (map.len self.now + 2) }
    {
        let same = self.share()?;
        same.into_cancelled(alloc, id, steps)
    }

    /// The table with this row at the id, in place of the one that it may have.
    fn into_row<L: Ledger>(
        self,
        alloc: Global,
        id: u64,
        row: Row,
        steps: &mut Steps<L>,
    ) -> Result<JobTable, AllocError>
        ensures row { IfOk result (λ table. table ≡ map.insert self id row) }
        ensures work { steps.new ≤ steps.old + 16 }
    {
        let JobTable { mut root } = self;
        match root.set(alloc, 16, id, row, steps) {
            Ok(()) => Ok(JobTable { root }),
            Err(refused) => Err(refused),
        }
    }
}
