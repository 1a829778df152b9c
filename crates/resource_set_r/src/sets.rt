//! Numbers in rising order, each once.
ghost use Rattle.std.specs.Prelude.{◌≡◌, ◌-◌, IfOk, IsTrue, OnOk};
ghost use Rattle.std.specs.List.{fold};
ghost use Rattle.std.specs.List.Sorted.{IsStrictlyIncreasing};
ghost use Rattle.std.specs.Ordering.{nat_cmp};
ghost use Rattle.std.specs.BTreeSet.{insert_key};
ghost use Rattle.idset_text.specs.Idsets.{ids_from};
ghost use Rattle.resource_set_r.specs.Rows.{rising};

use flux_defs::List;
use std::alloc::{AllocError, Global};
use std::collections::BTreeSet;

/// Adds a number to a list that is to be put in order, unless it is the last one.
pub(crate) fn add(numbers: &mut Vec<u32>, number: u32) -> Result<(), AllocError>
    ensures { OnOk result (rising numbers.new.items ≡ insert_key nat_cmp (rising numbers.old.items) number) }
{
    match numbers.as_slice().last() {
        Some(last) => {
            if number == *last {
                return Ok(());
            }
        }
        None => {}
    }
    numbers.push(number)?;
    Ok(())
}

/// Adds the numbers from `from` on and before `to`.
pub(crate) fn add_all(numbers: &mut Vec<u32>, from: u32, to: u32) -> Result<(), AllocError>
    ensures { OnOk result (rising numbers.new.items
        ≡ fold (insert_key nat_cmp) (rising numbers.old.items) (ids_from (to - from) from)) }
{
    'numbers: for number in from..to {
        add(numbers, number)?;
    }
    Ok(())
}

/// The numbers of a list in rising order, each once: the list itself where it rises already.
pub(crate) fn in_order(alloc: Global, numbers: Vec<u32>) -> Result<List<u32>, AllocError>
    ensures { IfOk result (λ list. list ≡ rising numbers.items) }
{
    if do_rise(numbers.as_slice()) {
        return Ok(List::of_vec(numbers));
    }
    sorted(alloc, numbers.as_slice())
}

/// Whether each number is greater than the one before it.
fn do_rise(numbers: &[u32]) -> bool
    ensures { IsTrue result → IsStrictlyIncreasing numbers.now }
{
    for at in 1..numbers.len() {
        if numbers[at - 1] >= numbers[at] {
            return false;
        }
    }
    true
}

/// The numbers in rising order, each once, by a set.
fn sorted(alloc: Global, numbers: &[u32]) -> Result<List<u32>, AllocError>
    ensures { IfOk result (λ list. list ≡ rising numbers.now) }
{
    let mut set = BTreeSet::new(alloc);
    'numbers: for number in numbers {
        put(&mut set, *number)?;
    }
    numbers_of(alloc, &mut set)
}

/// Puts a number into a set.
fn put(set: &mut BTreeSet<u32>, number: u32) -> Result<(), AllocError>
    ensures { OnOk result (set.new.keys ≡ insert_key nat_cmp set.old.keys number) }
{
    set.insert(number)?;
    Ok(())
}

/// The numbers of a set, which is empty then.
fn numbers_of(alloc: Global, set: &mut BTreeSet<u32>) -> Result<List<u32>, AllocError>
    ensures { IfOk result (λ list. list ≡ set.old.keys) }
{
    let mut list = Vec::with_capacity(alloc, set.len())?;
    'numbers: while let Some(number) = set.pop_first() {
        list.push(number)?;
    }
    Ok(List::of_vec(list))
}
