//! What a search of the present state finds of a command.
ghost use Rattle.std.specs.Prelude.{◌≡◌, ℕ, ◌+◌, ◌*◌, ◌≤◌, ◌↔◌, IsTrue, List, IfOk, Contains};
ghost use Rattle.std.specs.FinMap.{len};
ghost use Rattle.flux_defs.specs.declared.journal.Entry.{Entry};
ghost use Rattle.flux_defs.specs.Digits.{dig};
ghost use Rattle.flux_defs.specs.Needs.{IsProperAsk};
ghost use Rattle.flux_defs.specs.Asks.{CountsWithin, IsSatisfiable};
ghost use Rattle.flux_defs.specs.Verdicts.{FindsNow, FindsEarliest, FindsJob};
ghost use Rattle.prune_filters.specs.declared.rules.Rule.{Rule};
ghost use Rattle.book_state.specs.Books.{rows_of};
ghost use Rattle.sched_core.specs.Courses.{left_by, setting_of, IsBookOf};
ghost use Rattle.sched_core.specs.Answered.{FindsAt, MayFind, FoundIn};
ghost use Rattle.sched_core.specs.SearchCosts.{BookTakes, satisfy_most};
ghost use Rattle.sched_core.specs.declared.finding.Starts.TheVariants as starts;
ghost use Rattle.book_state.specs.Books.{moment_of};

use book_state::BookState;
use dfu_match::{match_at, some_fit};
use earliest_search::{counts, earliest, window_at};
use flux_defs::{Ask, NoJobs, Steps, Verdict, Window};
use resource_graph::Graph;
use std::alloc::{AllocError, Global};
use std::sync::ledger::Ledger;

/// The starts that an ask for a job may have.
#[derive(Clone, Copy)]
pub(crate) enum Starts {
    /// The present moment alone: an allocate.
    Now,
    /// The earliest from the present moment on: a reserve.
    Earliest,
}

/// Whether some claims fit the graph with no jobs.
pub(crate) fn is_satisfiable<L: Ledger>(graph: &Graph, ask: &Ask, steps: &mut Steps<L>) -> bool
    requires { IsProperAsk graph.now.resources.vertices ask.now }
    ensures answer { IsTrue result ↔ IsSatisfiable graph.now.resources.vertices ask.now }
    ensures work { steps.new ≤ steps.old + satisfy_most graph.now.resources.vertices ask.now }
{
    let empty = NoJobs::over(graph.vertices());
    let moment = Window { from: 0, to: 1 };
    some_fit(graph, &empty, ask, moment, steps)
}

/// Whether a job of this id was ever accepted.
pub(crate) fn is_used<L: Ledger>(book: &BookState, id: u64, steps: &mut Steps<L>) -> bool
    ensures answer { (journal : List Entry) → IsBookOf journal book.now →
        (IsTrue result ↔ Contains (left_by journal).used id) }
    ensures work { steps.new ≤ steps.old + 16 * dig (len (rows_of book.now) + 2) }
{
    book.find(id, steps).is_some()
}

/// What is found of the ask at the present moment.
fn find_now<L: Ledger>(
    alloc: Global,
    graph: &Graph,
    horizon: u64,
    book: &BookState,
    ask: &Ask,
    moment: u64,
    steps: &mut Steps<L>,
) -> Result<Verdict, AllocError>
    requires may { MayFind graph.now.resources book.now ask.now }
    requires counts { CountsWithin horizon ask.now moment }
    ensures found { IfOk result (λ v. FoundIn graph.now.resources horizon book.now moment
        (λ g s. FindsNow g s ask.now v)) }
    ensures work { BookTakes graph.now.resources horizon book.now moment starts.Now ask.now result steps.old steps.new }
{
    let window = window_at(horizon, ask, moment);
    match match_at(alloc, graph, book, ask, window, steps)? {
        None => Ok(Verdict::NoFit),
        Some(claims) => Ok(Verdict::Found {
            start: moment,
            claims,
        }),
    }
}

/// What is found of the ask at its earliest start.
fn find_earliest<L: Ledger>(
    alloc: Global,
    graph: &Graph,
    horizon: u64,
    book: &BookState,
    ask: &Ask,
    moment: u64,
    steps: &mut Steps<L>,
) -> Result<Verdict, AllocError>
    requires may { MayFind graph.now.resources book.now ask.now }
    ensures found { IfOk result (λ v. FoundIn graph.now.resources horizon book.now moment
        (λ g s. FindsEarliest g s ask.now v)) }
    ensures work { BookTakes graph.now.resources horizon book.now moment starts.Earliest ask.now result steps.old
        steps.new }
{
    match earliest(alloc, graph, book, ask, moment, horizon, steps)? {
        None => Ok(Verdict::NoFit),
        Some(found) => Ok(Verdict::Found {
            start: found.start,
            claims: found.claims,
        }),
    }
}

/// What is found of the ask at the starts that it may have.
fn find_at<L: Ledger>(
    alloc: Global,
    graph: &Graph,
    horizon: u64,
    book: &BookState,
    ask: &Ask,
    moment: u64,
    starts: Starts,
    steps: &mut Steps<L>,
) -> Result<Verdict, AllocError>
    requires may { MayFind graph.now.resources book.now ask.now }
    requires counts { CountsWithin horizon ask.now moment }
    ensures found { IfOk result (λ v. FoundIn graph.now.resources horizon book.now moment
        (λ g s. FindsAt starts g s ask.now v)) }
    ensures work { BookTakes graph.now.resources horizon book.now moment starts ask.now result steps.old steps.new }
{
    match starts {
        Starts::Now => find_now(alloc, graph, horizon, book, ask, moment, steps),
        Starts::Earliest => find_earliest(alloc, graph, horizon, book, ask, moment, steps),
    }
}

/// What is found of an ask for a job.
pub(crate) fn find_job<L: Ledger>(
    alloc: Global,
    graph: &Graph,
    horizon: u64,
    book: &BookState,
    id: u64,
    ask: &Ask,
    starts: Starts,
    steps: &mut Steps<L>,
) -> Result<Verdict, AllocError>
    requires may { MayFind graph.now.resources book.now ask.now }
    ensures found { IfOk result (λ v. (rules : List Rule) (limit : ℕ) (journal : List Entry) →
        IsBookOf journal book.now →
        FindsJob (setting_of graph.now.resources rules horizon limit) (left_by journal) id ask.now
        (FindsAt starts (setting_of graph.now.resources rules horizon limit) (left_by journal) ask.now) v) }
    ensures work { BookTakes graph.now.resources horizon book.now (moment_of book.now) starts ask.now result
        (steps.old + 16 * dig (len (rows_of book.now) + 2) + satisfy_most graph.now.resources.vertices ask.now)
        steps.new }
{
    if is_used(book, id, steps) {
        return Ok(Verdict::Known);
    }
    if !is_satisfiable(graph, ask, steps) {
        return Ok(Verdict::Unsat);
    }
    let moment = book.now();
    if !counts(horizon, ask, moment) {
        return Ok(Verdict::Long);
    }
    find_at(alloc, graph, horizon, book, ask, moment, starts, steps)
}
