//! Changes of the points of a tree.
ghost use Rattle.std.specs.Prelude.{◌≡◌, ◌+◌, ◌*◌, ◌<◌, ◌≤◌, List, length, IfOk, OnOk};
ghost use Rattle.planner_min_tree.specs.Chunks.{flat, AreFilled, chunk_at};
ghost use Rattle.planner_min_tree.specs.Marks.{marked, changed, time_of};
ghost use Rattle.balanced_tree.specs.Edits.{edited, made};

use crate::chunks::{Chunk, FEW, PAST_POINTS, copied};
use crate::marking::{Change, Mark};
use crate::points::{Dip, Point};
use crate::walks::{Side, chunk_at};
use arrayvec::ArrayVec;
use balanced_tree::{Edit, Tree};
use flux_defs::Steps;
use std::alloc::{AllocError, Global};
use std::sync::ledger::Ledger;

/// Room for the points of a node, and two more.
const FEW_ROOM: usize = FEW + 2;

/// Room for the points of a node that are past, and two more.
const PAST_ROOM: usize = PAST_POINTS + 2;

/// What stands in the place of a chunk of so few points: that chunk, or none.
fn put_few(alloc: Global, points: ArrayVec<Point, FEW>) -> Result<Edit<Chunk>, AllocError>
    ensures items { IfOk result (λ edit. flat (made edit) ≡ points.items) }
    ensures filled { IfOk result (λ edit. AreFilled (made edit)) }
{
    if points.is_empty() {
        return Ok(Edit::Cut);
    }
    let chunk = Chunk::of(alloc, points)?;
    Ok(Edit::Put(chunk))
}

/// What stands in the place of a chunk: as `put_few`, or one chunk of so many points at most, or two chunks of about
/// the same length.
fn put_many(alloc: Global, points: &[Point], most: usize) -> Result<Edit<Chunk>, AllocError>
    ensures items { IfOk result (λ edit. flat (made edit) ≡ points.now) }
    ensures filled { IfOk result (λ edit. AreFilled (made edit)) }
{
    if points.len() <= FEW {
        let few = copied(points)?;
        return put_few(alloc, few);
    }
    if points.len() <= most {
        let chunk = Chunk::copied(alloc, points)?;
        return Ok(Edit::Put(chunk));
    }
    let (front, back) = points.split_at(points.len() / 2);
    let first = Chunk::copied(alloc, front)?;
    let second = Chunk::copied(alloc, back)?;
    Ok(Edit::Pair(first, second))
}

/// What stands in the place of a chunk of more than `FEW` points after a change of them. It stands alone, so that no
/// other change has to clear room for so many.
#[inline(never)]
fn long_changed(alloc: Global, points: &[Point], change: Change) -> Result<Edit<Chunk>, AllocError>
    ensures items { IfOk result (λ edit. flat (made edit) ≡ changed change points.now) }
    ensures filled { IfOk result (λ edit. AreFilled (made edit)) }
{
    let mut many = copied::<_, PAST_ROOM>(points)?;
    change.apply(&mut many)?;
    put_many(alloc, many.as_slice(), PAST_POINTS)
}

/// What stands in the place of a chunk after a change of its points.
fn changed(alloc: Global, points: &[Point], change: Change) -> Result<Edit<Chunk>, AllocError>
    ensures items { IfOk result (λ edit. flat (made edit) ≡ changed change points.now) }
    ensures filled { IfOk result (λ edit. AreFilled (made edit)) }
{
    if points.len() < FEW {
        let mut few = copied::<_, FEW>(points)?;
        change.apply(&mut few)?;
        return put_few(alloc, few);
    }
    if points.len() > FEW {
        return long_changed(alloc, points, change);
    }
    let mut many = copied::<_, FEW_ROOM>(points)?;
    change.apply(&mut many)?;
    put_many(alloc, many.as_slice(), FEW)
}

/// What stands in the place of a chunk of more than `FEW` points after two changes of them, as `long_changed`.
#[inline(never)]
fn long_changed_twice(
    alloc: Global,
    points: &[Point],
    first: Change,
    second: Change,
) -> Result<Edit<Chunk>, AllocError>
    ensures items { IfOk result (λ edit. flat (made edit) ≡ changed second (changed first points.now)) }
    ensures filled { IfOk result (λ edit. AreFilled (made edit)) }
{
    let mut many = copied::<_, PAST_ROOM>(points)?;
    first.apply(&mut many)?;
    second.apply(&mut many)?;
    put_many(alloc, many.as_slice(), PAST_POINTS)
}

/// What stands in the place of a chunk after two changes of its points, which are both made in one array.
fn changed_twice(
    alloc: Global,
    points: &[Point],
    first: Change,
    second: Change,
) -> Result<Edit<Chunk>, AllocError>
    ensures items { IfOk result (λ edit. flat (made edit) ≡ changed second (changed first points.now)) }
    ensures filled { IfOk result (λ edit. AreFilled (made edit)) }
{
    if points.len() + 1 < FEW {
        let mut few = copied::<_, FEW>(points)?;
        first.apply(&mut few)?;
        second.apply(&mut few)?;
        return put_few(alloc, few);
    }
    if points.len() > FEW {
        return long_changed_twice(alloc, points, first, second);
    }
    let mut many = copied::<_, FEW_ROOM>(points)?;
    first.apply(&mut many)?;
    second.apply(&mut many)?;
    put_many(alloc, many.as_slice(), FEW)
}

/// Edits the chunk at that place of a tree. Where no memory is left no chunk is.
#[inline]
#[tactic(auto, using(crate::proofs::ChunkLaws::change_fills))]
pub fn edit<L: Ledger>(
    alloc: Global,
    tree: &mut Tree<Chunk, Dip>,
    at: u64,
    edit: Edit<Chunk>,
    steps: &mut Steps<L>,
) -> Result<(), AllocError>
    requires filled { AreFilled tree.old.0 }
    requires edit { AreFilled (made edit) }
    requires within { at < length tree.old.0 }
    ensures items { OnOk result (tree.new.0 ≡ edited tree.old.0 at edit) }
    ensures filled { AreFilled tree.new.0 }
    ensures height { OnOk result (tree.new.1 ≤ tree.old.1 + 1) }
    ensures work { steps.new ≤ steps.old + 3 * tree.old.1 + 2 }
{
    match tree.edit(alloc, at, edit, steps) {
        Ok(()) => Ok(()),
        Err(refused) => {
            *tree = Tree::empty();
            Err(refused)
        }
    }
}

/// Makes a tree that of these points after two changes. It stands alone, so that points that are changed where they
/// stand have no room to clear for a copy.
#[inline(never)]
#[tactic(auto, using(crate::proofs::ChunkLaws::made_facts))]
fn remake<L: Ledger>(
    alloc: Global,
    tree: &mut Tree<Chunk, Dip>,
    points: &[Point],
    first: Change,
    second: Change,
    steps: &mut Steps<L>,
) -> Result<(), AllocError>
    requires { AreFilled tree.old.0 }
    ensures items { OnOk result (flat tree.new.0 ≡ changed second (changed first points.now)) }
    ensures filled { AreFilled tree.new.0 }
    ensures work { steps.new ≤ steps.old + 2 }
{
    let edit = changed_twice(alloc, points, first, second)?;
    *tree = Tree::made(alloc, edit, steps)?;
    Ok(())
}

/// Changes the points of a tree without sides twice: where they stand, if there is room for two more.
#[tactic(auto, using(crate::proofs::ChunkLaws::made_facts))]
fn few_change<L: Ledger>(
    alloc: Global,
    tree: &mut Tree<Chunk, Dip>,
    first: Change,
    second: Change,
    steps: &mut Steps<L>,
) -> Result<(), AllocError>
    requires { tree.old.1 ≡ 0 }
    ensures items { OnOk result (flat tree.new.0 ≡ changed second (changed first (flat tree.old.0))) }
    ensures filled { AreFilled tree.new.0 }
    ensures work { steps.new ≤ steps.old + 4 }
{
    let Some(mut chunk) = tree.take_leaf() else {
        return remake(alloc, tree, &[], first, second, steps);
    };
    match chunk.change_twice(alloc, first, second, steps)? {
        None => remake(alloc, tree, chunk.look(steps), first, second, steps),
        Some(0) => Ok(()),
        Some(_) => tree.set_leaf(chunk, steps),
    }
}

/// Changes the points of a tree in one chunk.
#[tactic(auto, using(crate::proofs::ChunkLaws::change_facts))]
fn many_change<L: Ledger>(
    alloc: Global,
    tree: &mut Tree<Chunk, Dip>,
    change: Change,
    steps: &mut Steps<L>,
) -> Result<(), AllocError>
    requires { AreFilled tree.old.0 }
    ensures items { OnOk result (flat tree.new.0 ≡ changed change (flat tree.old.0)) }
    ensures filled { AreFilled tree.new.0 }
    ensures height { OnOk result (tree.new.1 ≤ tree.old.1 + 1) }
    ensures work { steps.new ≤ steps.old + 5 * tree.old.1 + 4 }
{
    if tree.len() == 0 {
        let edit = changed(alloc, &[], change)?;
        *tree = Tree::made(alloc, edit, steps)?;
        return Ok(());
    }
    let at = chunk_at(Side { tree: &*tree }, change.time(), steps);
    let new = changed(alloc, tree.get(at, steps).look(steps), change)?;
    edit(alloc, tree, at, new, steps)
}

/// Changes the points of a tree twice in one chunk, first by an end of a span more: one edit makes both.
#[tactic(auto, using(crate::proofs::ChunkLaws::both_facts))]
fn chunk_change_twice<L: Ledger>(
    alloc: Global,
    tree: &mut Tree<Chunk, Dip>,
    at: u64,
    first: Mark,
    second: Change,
    steps: &mut Steps<L>,
) -> Result<(), AllocError>
    requires filled { AreFilled tree.old.0 }
    requires within { at < length tree.old.0 }
    requires first { at ≡ chunk_at first.time tree.old.0 }
    requires second { chunk_at first.time tree.old.0 ≡ chunk_at (time_of second) tree.old.0 }
    ensures items { OnOk result (flat tree.new.0 ≡ changed second (marked first (flat tree.old.0))) }
    ensures filled { AreFilled tree.new.0 }
    ensures work { steps.new ≤ steps.old + 4 * tree.old.1 + 3 }
{
    let new = changed_twice(
        alloc,
        tree.get(at, steps).look(steps),
        Change::More(first),
        second,
    )?;
    edit(alloc, tree, at, new, steps)
}

/// Changes the points of a tree twice, in one chunk after the other.
fn chunks_change<L: Ledger>(
    alloc: Global,
    tree: &mut Tree<Chunk, Dip>,
    first: Change,
    second: Change,
    steps: &mut Steps<L>,
) -> Result<(), AllocError>
    requires { AreFilled tree.old.0 }
    ensures items { OnOk result (flat tree.new.0 ≡ changed second (changed first (flat tree.old.0))) }
    ensures filled { AreFilled tree.new.0 }
    ensures work { steps.new ≤ steps.old + 10 * tree.old.1 + 13 }
{
    many_change(alloc, tree, first, steps)?;
    many_change(alloc, tree, second, steps)
}

/// Changes the points of a tree twice. Where no memory is left the tree may have any points.
pub fn change_twice<L: Ledger>(
    alloc: Global,
    tree: &mut Tree<Chunk, Dip>,
    first: Change,
    second: Change,
    steps: &mut Steps<L>,
) -> Result<(), AllocError>
    requires { AreFilled tree.old.0 }
    ensures items { OnOk result (flat tree.new.0 ≡ changed second (changed first (flat tree.old.0))) }
    ensures filled { AreFilled tree.new.0 }
    ensures work { steps.new ≤ steps.old + 13 * (tree.old.1 + 1) }
{
    if tree.height() == 0 {
        return few_change(alloc, tree, first, second, steps);
    }
    match first {
        Change::Less(_) => chunks_change(alloc, tree, first, second, steps),
        Change::More(mark) => {
            let at = chunk_at(Side { tree: &*tree }, mark.time, steps);
            if chunk_at(Side { tree: &*tree }, second.time(), steps) != at {
                return chunks_change(alloc, tree, first, second, steps);
            }
            chunk_change_twice(alloc, tree, at, mark, second, steps)
        }
    }
}

/// Changes the points of a tree once. Where no memory is left the tree may have any points.
pub fn change_once<L: Ledger>(
    alloc: Global,
    tree: &mut Tree<Chunk, Dip>,
    change: Change,
    steps: &mut Steps<L>,
) -> Result<(), AllocError>
    requires { AreFilled tree.old.0 }
    ensures items { OnOk result (flat tree.new.0 ≡ changed change (flat tree.old.0)) }
    ensures filled { AreFilled tree.new.0 }
    ensures work { steps.new ≤ steps.old + 5 * tree.old.1 + 4 }
{
    many_change(alloc, tree, change, steps)
}
