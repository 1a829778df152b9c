//! Tables of jobs beside sorted maps.

use crate::Differing;
use flux_defs::Steps;
use job_table::{JobTable, Row};
use seeded_numbers::Seed;
use std::alloc::{AllocError, Global};
use std::collections::BTreeMap;
use std::sync::ledger::Ledger;

/// The table with a live row for the id where it has none, and with its row cancelled where that is live.
fn changed<L: Ledger>(
    alloc: Global,
    table: &JobTable,
    id: u64,
    at: u64,
    steps: &mut Steps<L>,
) -> Result<JobTable, AllocError> {
    match table.find(id, steps) {
        None => return table.with_new(alloc, id, at, steps),
        Some(row) => {
            if row.live {
                return table.with_cancelled(alloc, id, steps);
            }
            return table.share();
        }
    }
}

/// The same in a sorted map.
fn change(rows: &mut BTreeMap<u64, Row>, id: u64, at: u64) -> Result<(), AllocError> {
    let row = match rows.get(&id) {
        Some(row) => Row {
            at: row.at,
            live: false,
        },
        None => Row { at, live: true },
    };
    rows.insert(id, row)?;
    Ok(())
}

/// The id with a number: some of these ids differ in their first digits alone and some in their last.
fn id_of(number: u64) -> u64 {
    if number < 100 {
        number << 40
    } else if number < 200 {
        u64::MAX - number
    } else {
        number
    }
}

/// At how many ids of the first 300 numbers the two differ.
fn differing<L: Ledger>(table: &JobTable, rows: &BTreeMap<u64, Row>, steps: &mut Steps<L>) -> u64 {
    let mut count = 0u64;
    for number in 0..300u64 {
        let id = id_of(number);
        if table.find(id, steps) != rows.get(&id).copied() {
            count = count.wrapping_add(1);
        }
    }
    count
}

/// What differs after a thousand changes, and of the table of 700 changes at the end.
pub fn compared<L: Ledger>(alloc: Global, steps: &mut Steps<L>) -> Result<Differing, AllocError> {
    let (mut table, mut rows) = (JobTable::empty(), BTreeMap::new(alloc));
    let (mut old, mut old_rows) = (JobTable::empty(), BTreeMap::new(alloc));
    let mut seed = Seed::of(1);
    for turn in 0..1000u64 {
        if turn == 700 {
            old = table.share()?;
            old_rows = rows.clone()?;
        }
        let id = id_of(seed.below(300));
        change(&mut rows, id, turn)?;
        table = changed(alloc, &table, id, turn, steps)?;
    }
    Ok(Differing {
        now: differing(&table, &rows, steps),
        old: differing(&old, &old_rows, steps),
    })
}

/// The rows of 7 and of 8 after 7 was accepted by entry 0 and then cancelled, and that of 7 in the table before that.
pub fn told<L: Ledger>(
    alloc: Global,
    steps: &mut Steps<L>,
) -> Result<[Option<Row>; 3], AllocError> {
    let first = changed(alloc, &JobTable::empty(), 7, 0, steps)?;
    let last = changed(alloc, &first, 7, 1, steps)?;
    Ok([
        last.find(7, steps),
        last.find(8, steps),
        first.find(7, steps),
    ])
}
