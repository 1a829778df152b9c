//! Some points in a node.
ghost use Rattle.std.specs.Prelude.{◌≡◌, ◌+◌, ◌<◌, ◌≤◌, List, [], ◌++◌, length, IfOk, IfSome, MatchOption, OnOk};
ghost use Rattle.planner_min_tree.specs.Chunks.{flat, AreFilled};
ghost use Rattle.planner_min_tree.specs.Marks.{changed};
ghost use Rattle.planner_min_tree.specs.Points.{dip_of};
ghost use Rattle.balanced_tree.specs.Edits.{made};

use crate::marking::Change;
use crate::points::{Dip, Point, dip_of};
use arrayvec::ArrayVec;
use balanced_tree::{Edit, Measure};
use flux_defs::Steps;
use node_store::{Node, Share};
use std::alloc::{AllocError, Global};
use std::marker::Model;
use std::sync::ledger::Ledger;

/// How many points stand in one node at most.
pub const FEW: usize = 16;

/// How many points that are past stand in one node at most.
pub const PAST_POINTS: usize = 32;

/// So many points at most, one after the other. How many there are stands before the first of them, so that most
/// questions read the front of a node alone: the array keeps it behind its last place. Contracts see the list of them.
#[derive(Drop)]
struct Block<const N: usize> {
    count: usize,
    points: ArrayVec<Point, N>,
}

impl<const N: usize> Model for Block<N> {
    ghost use Rattle.std.specs.Prelude.{◌≡◌, List, length};
    ghost use Rattle.planner_min_tree.specs.declared.points.Point.{Point};

    ghost Value = { List Point };

    ghost view = { λ block. block.points.items };

    ghost invariant = { λ block. block.count ≡ length block.points.items };
}

/// A node of up to `FEW` points, or one of more, as there are of the past.
#[derive(Drop)]
enum Holder {
    Few(Node<Block<FEW>>),
    Many(Node<Block<PAST_POINTS>>),
}

/// Up to `PAST_POINTS` points, one after the other, in one node. Contracts see the list of them.
#[derive(Drop)]
pub struct Chunk {
    holder: Holder,
}

impl Model for Chunk {
    ghost use Rattle.std.specs.Prelude.{List};
    ghost use Rattle.planner_min_tree.specs.declared.points.Point.{Point};

    ghost Value = { List Point };

    ghost use Rattle.planner_min_tree.specs.Blocks.{points_in};

    ghost view = { λ chunk. points_in chunk.holder };
}

impl<const N: usize> Share for Block<N> {
    fn share(&self) -> Result<Block<N>, AllocError> {
        let points = copied(self.items())?;
        Ok(Block::of(points))
    }
}

impl Share for Chunk {
    fn share(&self) -> Result<Chunk, AllocError> {
        let holder = match &self.holder {
            Holder::Few(node) => Holder::Few(node.share()?),
            Holder::Many(node) => Holder::Many(node.share()?),
        };
        Ok(Chunk { holder })
    }
}

/// The items in an array of room for so many.
pub fn copied<T: Copy + Default, const N: usize>(items: &[T]) -> Result<ArrayVec<T, N>, AllocError>
    ensures { IfOk result (λ copy. copy.items ≡ items.now) }
{
    let mut copy = ArrayVec::new();
    for item in items {
        if copy.is_full() {
            return Err(AllocError);
        }
        copy.push(*item);
    }
    Ok(copy)
}

/// The points in an array of room for so many, the first before the others. Too many are answered as want of memory.
fn in_turn<const N: usize>(
    first: &[Point],
    others: &[Point],
) -> Result<ArrayVec<Point, N>, AllocError>
    ensures { IfOk result (λ both. both.items ≡ first.now ++ others.now) }
{
    let mut both = copied(first)?;
    if both.try_extend_from_slice(others).is_err() {
        return Err(AllocError);
    }
    Ok(both)
}

impl<const N: usize> Block<N> {
    /// These points.
    fn of(points: ArrayVec<Point, N>) -> Block<N>
        ensures { result ≡ points.entry.items }
    {
        Block {
            count: points.len(),
            points,
        }
    }

    /// How many points there are.
    #[inline(always)]
    fn len(&self) -> usize
        ensures { result ≡ length self.now }
    {
        self.count
    }

    /// Its points.
    #[inline(always)]
    fn items(&self) -> &[Point]
        ensures { result.now ≡ self.now }
    {
        &self.points.as_slice()[..self.count]
    }

    /// Changes its points twice, and tells how many it then has.
    #[inline(always)]
    fn change_twice(&mut self, first: Change, second: Change) -> Result<usize, AllocError>
        ensures points { OnOk result (self.new ≡ changed second (changed first self.old)) }
        ensures len { IfOk result (λ n. n ≡ length self.new) }
    {
        let both = apply_both(&mut self.points, first, second);
        self.count = self.points.len();
        both?;
        Ok(self.count)
    }
}

/// Makes both changes of a few points.
#[inline(always)]
fn apply_both<const N: usize>(
    points: &mut ArrayVec<Point, N>,
    first: Change,
    second: Change,
) -> Result<(), AllocError>
    ensures { OnOk result (points.new.items ≡ changed second (changed first points.old.items)) }
{
    first.apply(points)?;
    second.apply(points)
}

impl Chunk {
    /// A node of copies of these points.
    pub fn copied(alloc: Global, points: &[Point]) -> Result<Chunk, AllocError>
        ensures { IfOk result (λ chunk. chunk ≡ points.now) }
    {
        Chunk::joined(alloc, points, &[])
    }

    /// A node of copies of these points, the first before the others.
    pub fn joined(alloc: Global, first: &[Point], others: &[Point]) -> Result<Chunk, AllocError>
        ensures { IfOk result (λ chunk. chunk ≡ first.now ++ others.now) }
    {
        if first.len() + others.len() <= FEW {
            let few = in_turn(first, others)?;
            return Chunk::of(alloc, few);
        }
        let points = in_turn(first, others)?;
        match Node::new(alloc, Block::of(points)) {
            Ok(node) => Ok(Chunk {
                holder: Holder::Many(node),
            }),
            Err((_, refused)) => Err(refused),
        }
    }

    /// A node of these points.
    pub fn of(alloc: Global, points: ArrayVec<Point, FEW>) -> Result<Chunk, AllocError>
        ensures { IfOk result (λ chunk. chunk ≡ points.items) }
    {
        match Node::new(alloc, Block::of(points)) {
            Ok(node) => Ok(Chunk {
                holder: Holder::Few(node),
            }),
            Err((_, refused)) => Err(refused),
        }
    }

    /// Its points. It takes one step.
    pub fn look<L: Ledger>(&self, steps: &mut Steps<L>) -> &[Point]
        ensures value { result.now ≡ self.now }
        ensures work { steps.new ≡ steps.old + 1 }
    {
        match &self.holder {
            Holder::Few(node) => node.look(steps).items(),
            Holder::Many(node) => node.look(steps).items(),
        }
    }
}

impl Chunk {
    /// Changes its points twice where they stand, if there is room for two more, and tells how many it then has. A node
    /// that others hold too is first copied. It takes at most one step.
    #[inline]
    pub fn change_twice<L: Ledger>(
        &mut self,
        alloc: Global,
        first: Change,
        second: Change,
        steps: &mut Steps<L>,
    ) -> Result<Option<usize>, AllocError>
        ensures points { IfOk result (λ len. MatchOption len (self.new ≡ self.old)
            (λ _. self.new ≡ changed second (changed first self.old))) }
        ensures len { IfOk result (λ len. IfSome len (λ n. n ≡ length self.new)) }
        ensures work { steps.new ≤ steps.old + 1 }
    {
        let Holder::Few(node) = &mut self.holder else {
            return Ok(None);
        };
        if node.look(steps).len() > FEW - 2 {
            return Ok(None);
        }
        node.own(alloc)?;
        let Some(block) = node.get_mut() else {
            return Err(AllocError);
        };
        let len = block.change_twice(first, second)?;
        Ok(Some(len))
    }
}

impl Measure<Chunk> for Dip {
    ghost use Rattle.std.specs.Prelude.{List};
    ghost use Rattle.planner_min_tree.specs.Points.{dip_of};
    ghost use Rattle.planner_min_tree.specs.Chunks.{flat};

    ghost of_items = { λ chunks. dip_of (flat chunks) };

    fn nothing() -> Dip {
        Dip::nothing()
    }

    fn of_item<L: Ledger>(chunk: &Chunk, steps: &mut Steps<L>) -> Result<Dip, AllocError> {
        dip_of(chunk.look(steps))
    }

    #[inline(always)]
    fn join(self, other: Dip) -> Result<Dip, AllocError> {
        let both = self.then(other)?;
        Ok(both)
    }
}
