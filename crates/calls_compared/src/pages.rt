//! Lists beside plain ones.

use crate::Differing;
use flux_defs::Steps;
use seeded_numbers::Seed;
use snapshot_store::Pages;
use std::alloc::{AllocError, Global};
use std::sync::ledger::Ledger;

/// The list with the item at a place, or at its end where the place is past it.
fn with_item<L: Ledger>(
    alloc: Global,
    pages: &Pages<u64>,
    at: u64,
    item: u64,
    steps: &mut Steps<L>,
) -> Result<Pages<u64>, AllocError> {
    let changed = if at < pages.len() {
        pages.with(alloc, at, item, steps)
    } else {
        pages.with_pushed(alloc, item, steps)
    };
    match changed {
        Ok(pages) => Ok(pages),
        Err((_, refused)) => Err(refused),
    }
}

/// At how many places the two differ, the one past the longer list's end included.
fn differing<L: Ledger>(pages: &Pages<u64>, plain: &[u64], steps: &mut Steps<L>) -> u64 {
    let mut count = 0u64;
    for at in 0..plain.len() {
        if pages.get(at as u64, steps) != plain.get(at) {
            count = count.wrapping_add(1);
        }
    }
    count.wrapping_add(pages.len().abs_diff(plain.len() as u64))
}

/// What differs after a thousand changes, and of the list of 700 changes at the end.
pub fn compared<L: Ledger>(alloc: Global, steps: &mut Steps<L>) -> Result<Differing, AllocError> {
    let (mut pages, mut plain) = (Pages::empty(), Vec::new(alloc));
    let (mut old, mut old_plain) = (Pages::empty(), Vec::new(alloc));
    let mut seed = Seed::of(1);
    for turn in 0..1000u64 {
        if turn == 700 {
            old = pages.snap()?;
            old_plain = plain.clone()?;
        }
        let at = seed.below(400);
        match plain.get_mut(at as usize) {
            Some(place) => *place = turn,
            None => plain.push(turn)?,
        }
        pages = with_item(alloc, &pages, at, turn, steps)?;
    }
    Ok(Differing {
        now: differing(&pages, plain.as_slice(), steps),
        old: differing(&old, old_plain.as_slice(), steps),
    })
}

/// What the lists 10, 20 and 10, 30 hold at 1, of which the second is made of the first, and the second past its end.
pub fn told<L: Ledger>(
    alloc: Global,
    steps: &mut Steps<L>,
) -> Result<[Option<u64>; 3], AllocError> {
    let first = with_item(alloc, &Pages::empty(), 0, 10, steps)?;
    let old = with_item(alloc, &first, 1, 20, steps)?;
    let new = with_item(alloc, &old, 1, 30, steps)?;
    Ok([
        new.get(1, steps).copied(),
        old.get(1, steps).copied(),
        new.get(2, steps).copied(),
    ])
}
