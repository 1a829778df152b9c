//! What a book holds.
use crate::filtered::FilteredGraph;
use job_table::JobTable;
use planner_min_tree::MinTree;
use std::alloc::Global;
use std::marker::Model;
use std::sync::Arc;
use vertex_accounts::Accounts;

/// The fields of a book.
#[derive(Drop)]
pub struct Kept {
    pub(crate) filtered: Arc<FilteredGraph, Global>,
    pub(crate) horizon: u64,
    pub(crate) moment: u64,
    pub(crate) accounts: Accounts<MinTree>,
    pub(crate) table: JobTable,
}

/// A graph with filter rules and a horizon, the present moment, the accounts of the jobs that were accepted and not
/// cancelled, and a row for each job that was ever accepted. The calls that begin with `after` give a new book beside
/// the old one, those that begin with `into` make it of the old one, in place where no other book shares what changes.
/// Times are in seconds.
#[derive(Drop)]
pub struct BookState {
    pub(crate) kept: Kept,
}

impl Model for BookState {
    ghost use Rattle.std.specs.Coded.{codes};
    ghost use Rattle.job_table.specs.contracts.tables.JobTable as table;
    ghost use Rattle.book_state.specs.declared.held.Kept.{Kept};
    ghost use Rattle.book_state.specs.Books.{IsBook};

    ghost Value = { Kept };

    ghost coded = { Prim.hlevel (codes, table.the_row.coded) };

    ghost view = { λ book. book.kept };

    ghost invariant = { λ book. IsBook book.kept };
}
