//! Books of jobs: what no clause says is that the calls succeed with ample memory.
ghost use Rattle.std.specs.Prelude.{◌≡◌, ◌<◌};

use book_state::BookState;
use flux_defs::{FreeView, Steps};
use prune_filters::Rules;
use resource_graph::Graph;
use small_graphs::{TWO_NODES, shared_graph};
use std::alloc::{AllocError, Global};
use std::marker::Brand;
use std::sync::Arc;
use std::sync::ledger::{Blank, Ledger};
use std::test::Fail;

/// Whether the book has no row for the id, and no later point.
fn is_empty<L: Ledger>(book: &BookState, id: u64, blank: Blank) -> bool
    requires name { blank.name ≡ L.name }
    requires parts { blank.parts ≡ L.parts }
    requires some { 0 < blank.parts }
{
    let mut steps: Steps<L> = Steps::new(blank);
    book.find(id, &mut steps).is_none() && book.next_point(0, &mut steps).is_none()
}

/// A book over the graph.
fn book(alloc: Global, graph: Arc<Graph, Global>) -> Result<BookState, AllocError> {
    match Rules::read(alloc, b"ALL:core") {
        Ok(rules) => BookState::new(alloc, graph, rules, 1000),
        Err(_) => Err(AllocError),
    }
}

/// The moment of the same book at second 5, and whether it is empty.
fn told_of(book: &BookState) -> Result<(u64, bool), AllocError> {
    let later = book.share()?.after_advance(5)?;
    Ok((later.now(), is_empty::<Brand>(&later, 7, Blank::new(1))))
}

/// The same of a book of two nodes.
fn told(alloc: Global) -> Result<(u64, bool), Fail> {
    let book = book(alloc, shared_graph(alloc, TWO_NODES)?)?;
    Ok(told_of(&book)?)
}

#[test]
fn a_book_without_jobs(rt: HostRuntime) -> Result<(), Fail> {
    assert_eq!(rt; told(rt.alloc())?, (5, true));
    Ok(())
}
