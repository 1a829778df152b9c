//! Plays calls of the libraries that keep old versions: a few whose answers are known, and random ones, each beside a
//! plain answer. It writes what came, and for each library how many answers differ. The numbers are the same in each
//! run, by a fixed seed.
#![tactic(auto)]

ghost use Rattle.std.specs.Prelude.{◌≡◌, ◌<◌};

mod adding;
mod books;
mod nodes;
mod pages;
mod planners;
mod side_by_side;
mod tables;

use flux_defs::Steps;
use job_table::Row;
use planner_points::SpanList;
use std::alloc::{AllocError, Global};
use std::io;
use std::marker::Brand;
use std::sync::ledger::{Blank, Ledger};

/// How many answers differ, of the present value and of an older one.
#[derive(Clone, Copy)]
pub struct Differing {
    pub now: u64,
    pub old: u64,
}

/// What all calls answered.
#[derive(Clone, Copy)]
struct Answers {
    lent: [Option<u64>; 4],
    parts: (u64, u64),
    items: [Option<u64>; 3],
    rows: [Option<Row>; 3],
    spans: ([u64; 3], [Option<u64>; 6]),
    totals: [u64; 4],
    pages: Differing,
    tables: Differing,
    planners: (u64, u64),
    books: [(u64, u64); 4],
}

fn played<L: Ledger>(alloc: Global, blank: Blank) -> Result<Answers, AllocError>
    requires name { blank.name ≡ L.name }
    requires parts { blank.parts ≡ L.parts }
    requires some { 0 < blank.parts }
{
    let mut steps: Steps<L> = Steps::new(blank);
    Ok(Answers {
        lent: nodes::lent(alloc)?,
        parts: nodes::parts()?,
        items: pages::told(alloc, &mut steps)?,
        rows: tables::told(alloc, &mut steps)?,
        spans: planners::told(alloc, &mut steps)?,
        totals: side_by_side::told::<SpanList, L>(alloc, &mut steps)?,
        pages: pages::compared(alloc, &mut steps)?,
        tables: tables::compared(alloc, &mut steps)?,
        planners: planners::compared(alloc, &mut steps)?,
        books: books::compared(alloc, &mut steps)?,
    })
}

fn main(rt: HostRuntime) -> io::Result<()> {
    let Ok(told) = played::<Brand>(rt.alloc(), Blank::new(1)) else {
        return println!(rt; "no memory");
    };
    let [held, new, kept, stored] = told.lent;
    println!(rt;
        "a node that two hold: {held:?}; the new one {new:?}, the old one {kept:?}, then {stored:?}"
    )?;
    let (differing, emptied) = told.parts;
    println!(rt; "sixteen parts: {differing} differ, the emptied one holds {emptied}")?;
    let [new, old, past] = told.items;
    println!(rt; "the new list has {new:?} at 1, the old one {old:?}; at 2 {past:?}")?;
    let [row, other, before] = told.rows;
    println!(rt; "cancelled: {row:?}; not there: {other:?}; before: {before:?}")?;
    let ([all, of_share, of_less], found) = told.spans;
    println!(rt;
        "a planner: {all} at least, a share {of_share}, without the first span {of_less}"
    )?;
    let [ten, fifty, sixty, next, later, last] = found;
    println!(rt;
        "first for 10, 50, 60 seconds: {ten:?}, {fifty:?}, {sixty:?}; next: {next:?}, {later:?}, {last:?}"
    )?;
    let [first, second, first_again, second_again] = told.totals;
    println!(rt; "two totals: {first} and {second}, then {first_again} and {second_again}")?;
    let Differing { now, old } = told.pages;
    println!(rt; "lists: {now} items differ after 1000 changes, {old} of the list of 700 changes")?;
    let Differing { now, old } = told.tables;
    println!(rt;
        "tables: {now} rows differ after 1000 changes, {old} of the table of 700 changes"
    )?;
    let (differing, spans) = told.planners;
    println!(rt;
        "planners: {differing} answers differ in 2000 turns; more than 16 spans at the end: {}",
        spans > 16
    )?;
    let [cores, nodes, memory, none] = told.books;
    for (rules, (differing, added)) in [
        ("ALL:core", cores),
        ("ALL:core,cluster:node", nodes),
        ("ALL:memory", memory),
        ("x:y", none),
    ] {
        println!(rt;
            "books with {rules}: {differing} answers differ in 300 turns; more than 60 jobs went in: {}",
            added > 60
        )?;
    }
    Ok(())
}
