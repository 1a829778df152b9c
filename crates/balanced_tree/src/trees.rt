//! Balanced trees.
ghost use Rattle.std.specs.Prelude.{◌≡◌, ℕ, ◌+◌, ◌*◌, ◌^◌, ◌<◌, ◌≤◌, min, max, List, [], ◌∷◌, ◌++◌, length};
ghost use Rattle.std.specs.Prelude.{IsTrue, IfOk, OnOk, OnErr, MatchOption};

use crate::edits::Edit;
use crate::measures::Measure;
use flux_defs::Steps;
use node_store::{Node, Share};
use std::alloc::{AllocError, Global};
use std::marker::Model;
use std::mem;
use std::sync::ledger::Ledger;

/// A balanced tree of items in order. Contracts see the list of its items and its height, which is how many nodes stand
/// one below the other. The height, the number of items and their measure stand beside the pointer to the node, so that
/// to read them takes no step. The measure stands last: of two trees side by side the way down reads that of the first
/// and the pointer of the second.
#[cycle(tree)]
#[derive(Drop)]
pub struct Tree<E: Share + Drop, M: Measure<E>> {
    body: Body<E, M>,
    height: u64,
    len: u64,
    sum: M,
}

/// What a tree is made of.
#[cycle(tree)]
#[derive(Drop)]
enum Body<E: Share + Drop, M: Measure<E>> {
    Empty,
    Leaf(E),
    Fork(Node<Sides<E, M>>),
}

/// The two sides of a tree of two items or more.
#[cycle(tree)]
#[derive(Drop)]
pub struct Sides<E: Share + Drop, M: Measure<E>> {
    left: Tree<E, M>,
    right: Tree<E, M>,
}

/// What a tree is made of, to look at.
pub enum Shape<'a, E: Share + Drop, M: Measure<E>> {
    Empty,
    Leaf(&'a E),
    Fork(&'a Tree<E, M>, &'a Tree<E, M>),
}

/// What a tree of two sides keeps beside the pointer to them.
#[derive(Clone, Copy)]
struct Outline<M> {
    height: u64,
    len: u64,
    sum: M,
}

impl<E: Share + Drop, M: Measure<E>> Model for Tree<E, M> {
    ghost use Rattle.std.specs.Prelude.{ℕ, List};

    ghost Value = { List E × ℕ };

    ghost use Rattle.balanced_tree.specs.Trees.{items_of, IsTree};

    ghost view = { λ tree. (items_of tree.body, tree.height) };

    ghost invariant = { λ tree. IsTree M.of_items tree };

    ghost size = { λ value. value.1 };

    ghost use Rattle.std.proofs.Common.{arith};

    ghost size_decreases = { λ a h. Prim.grind arith };
}

impl<E: Share + Drop, M: Measure<E>> Share for Tree<E, M> {
    /// Another tree of the same items, which has its nodes in common with this one.
    fn share(&self) -> Result<Tree<E, M>, AllocError> {
        let body = match &self.body {
            Body::Empty => Body::Empty,
            Body::Leaf(item) => Body::Leaf(item.share()?),
            Body::Fork(node) => Body::Fork(node.share()?),
        };
        Ok(Tree {
            height: self.height,
            len: self.len,
            sum: self.sum,
            body,
        })
    }
}

impl<E: Share + Drop, M: Measure<E>> Share for Sides<E, M> {
    fn share(&self) -> Result<Sides<E, M>, AllocError> {
        let left = self.left.share()?;
        let right = self.right.share()?;
        Ok(Sides { left, right })
    }
}

impl<E: Share + Drop, M: Measure<E>> Tree<E, M> {
    ghost use Rattle.balanced_tree.specs.Sides.{HasShape, IsTall};
    ghost use Rattle.flux_defs.specs.Digits.{dig};

    /// The tree without items. It takes no memory.
    pub fn empty() -> Tree<E, M>
        ensures { result ≡ ([], 0) }
    {
        Tree {
            height: 0,
            len: 0,
            sum: M::nothing(),
            body: Body::Empty,
        }
    }

    /// The tree of one item. It takes no node, and at most one step.
    pub fn leaf<L: Ledger>(item: E, steps: &mut Steps<L>) -> Result<Tree<E, M>, AllocError>
        ensures value { IfOk result (λ tree. tree ≡ (item ∷ [], 0)) }
        ensures work { steps.new ≤ steps.old + 1 }
    {
        let sum = M::of_item(&item, steps)?;
        Ok(Tree {
            height: 0,
            len: 1,
            sum,
            body: Body::Leaf(item),
        })
    }

    /// How many items it has.
    pub fn len(&self) -> u64
        ensures { result ≡ length self.now.0 }
    {
        self.len
    }

    /// How many nodes stand one below the other.
    pub fn height(&self) -> u64
        ensures value { result ≡ self.now.1 }
        ensures some { 0 < self.now.1 → 0 < length self.now.0 }
        ensures tall { IsTall self.now }
        ensures fits { length self.now.0 < 2 ^ 64 }
        ensures low { self.now.1 + 1 ≤ 2 * dig (length self.now.0) }
    {
        let _len = self.len;
        self.height
    }

    /// The measure of its items.
    pub fn sum(&self) -> M
        ensures { result ≡ M.of_items self.now.0 }
    {
        self.sum
    }

    /// What it is made of. It takes a step where there are two sides.
    pub fn shape<L: Ledger>(&self, steps: &mut Steps<L>) -> Shape<'_, E, M>
        ensures shape { HasShape self.now result }
        ensures work { steps.new ≤ steps.old + min self.now.1 1 }
        ensures counted { steps.old ≤ steps.new }
    {
        match &self.body {
            Body::Empty => Shape::Empty,
            Body::Leaf(item) => Shape::Leaf(item),
            Body::Fork(node) => {
                let sides = node.look(steps);
                Shape::Fork(&sides.left, &sides.right)
            }
        }
    }
}

impl<E: Share + Drop, M: Measure<E>> Tree<E, M> {
    ghost use Rattle.balanced_tree.specs.Sides.{DifferByAtMost};
    ghost use Rattle.balanced_tree.specs.Trees.{Outlines};

    /// What a tree of these two sides keeps of them.
    #[inline(always)]
    fn outline(left: &Tree<E, M>, right: &Tree<E, M>) -> Result<Outline<M>, AllocError>
        requires some_left { 0 < length left.now.0 }
        requires some_right { 0 < length right.now.0 }
        requires near { DifferByAtMost 1 left.now.1 right.now.1 }
        ensures { IfOk result (λ outline. Outlines M.of_items left.now right.now outline) }
    {
        let Some(len) = left.len.checked_add(right.len) else {
            return Err(AllocError);
        };
        let sum = left.sum.join(right.sum)?;
        let height = left.height().max(right.height()) + 1;
        Ok(Outline { height, len, sum })
    }

    /// The two trees one after the other.
    fn fork(alloc: Global, left: Tree<E, M>, right: Tree<E, M>) -> Result<Tree<E, M>, AllocError>
        requires some_left { 0 < length left.0 }
        requires some_right { 0 < length right.0 }
        requires near { DifferByAtMost 1 left.1 right.1 }
        ensures { IfOk result (λ both. both ≡ (left.0 ++ right.0, max left.1 right.1 + 1)) }
    {
        let outline = Tree::outline(&left, &right)?;
        match Node::new(alloc, Sides { left, right }) {
            Ok(node) => Ok(Tree {
                height: outline.height,
                len: outline.len,
                sum: outline.sum,
                body: Body::Fork(node),
            }),
            Err((_, refused)) => Err(refused),
        }
    }
}

impl<E: Share + Drop, M: Measure<E>> Sides<E, M> {
    /// Takes both sides, and leaves two without items.
    fn taken(&mut self) -> (Tree<E, M>, Tree<E, M>)
        ensures left { result.0 ≡ self.old.left }
        ensures right { result.1 ≡ self.old.right }
    {
        let left = mem::replace(&mut self.left, Tree::empty());
        let right = mem::replace(&mut self.right, Tree::empty());
        (left, right)
    }
}

impl<E: Share + Drop, M: Measure<E>> Tree<E, M> {
    ghost use Rattle.balanced_tree.specs.Sides.{AreSides, DifferByAtMost, Settles};

    /// Takes the two sides out of a tree, or copies of them where another tree holds them too. It takes one step.
    fn into_sides<L: Ledger>(
        self,
        alloc: Global,
        steps: &mut Steps<L>,
    ) -> Result<(Tree<E, M>, Tree<E, M>), AllocError>
        requires { 0 < self.1 }
        ensures sides { IfOk result (λ sides. AreSides self sides.0 sides.1) }
        ensures work { steps.new ≡ steps.old + 1 }
    {
        let Tree { body, .. } = self;
        let Body::Fork(mut node) = body else {
            unreachable!()
        };
        steps.tick();
        node.own(alloc)?;
        let Some(sides) = node.get_mut() else {
            return Err(AllocError);
        };
        Ok(sides.taken())
    }

    /// The two trees one after the other, of which the left is higher by two.
    fn lean_left<L: Ledger>(
        alloc: Global,
        left: Tree<E, M>,
        right: Tree<E, M>,
        steps: &mut Steps<L>,
    ) -> Result<Tree<E, M>, AllocError>
        requires some_right { 0 < length right.0 }
        requires two_higher { left.1 ≡ right.1 + 2 }
        ensures items { IfOk result (λ both. both.0 ≡ left.0 ++ right.0) }
        ensures least { IfOk result (λ both. left.1 ≤ both.1) }
        ensures most { IfOk result (λ both. both.1 ≤ left.1 + 1) }
        ensures work { steps.new ≤ steps.old + 2 }
    {
        let (a, b) = left.into_sides(alloc, steps)?;
        if a.height() >= b.height() {
            let inner = Tree::fork(alloc, b, right)?;
            return Tree::fork(alloc, a, inner);
        }
        let (c, d) = b.into_sides(alloc, steps)?;
        let outer = Tree::fork(alloc, a, c)?;
        let inner = Tree::fork(alloc, d, right)?;
        Tree::fork(alloc, outer, inner)
    }

    /// The two trees one after the other, of which the right is higher by two.
    fn lean_right<L: Ledger>(
        alloc: Global,
        left: Tree<E, M>,
        right: Tree<E, M>,
        steps: &mut Steps<L>,
    ) -> Result<Tree<E, M>, AllocError>
        requires some_left { 0 < length left.0 }
        requires two_higher { right.1 ≡ left.1 + 2 }
        ensures items { IfOk result (λ both. both.0 ≡ left.0 ++ right.0) }
        ensures least { IfOk result (λ both. right.1 ≤ both.1) }
        ensures most { IfOk result (λ both. both.1 ≤ right.1 + 1) }
        ensures work { steps.new ≤ steps.old + 2 }
    {
        let (a, b) = right.into_sides(alloc, steps)?;
        if b.height() >= a.height() {
            let inner = Tree::fork(alloc, left, a)?;
            return Tree::fork(alloc, inner, b);
        }
        let (c, d) = a.into_sides(alloc, steps)?;
        let inner = Tree::fork(alloc, left, c)?;
        let outer = Tree::fork(alloc, d, b)?;
        Tree::fork(alloc, inner, outer)
    }
}

impl<E: Share + Drop, M: Measure<E>> Tree<E, M> {
    ghost use Rattle.std.specs.Prelude.{Some, slice_get};
    ghost use Rattle.balanced_tree.specs.Edits.{made};

    /// The item at a place. It takes a step for each node on the way to it.
    pub fn get<L: Ledger>(&self, at: u64, steps: &mut Steps<L>) -> &E
        requires { at < length self.now.0 }
        ensures value { slice_get self.now.0 at ≡ Some result.now }
        ensures work { steps.new ≤ steps.old + self.now.1 }
    {
        match &self.body {
            Body::Empty => unreachable!(),
            Body::Leaf(item) => item,
            Body::Fork(node) => {
                let sides = node.look(steps);
                let middle = sides.left.len();
                if at < middle {
                    sides.left.get(at, steps)
                } else {
                    sides.right.get(at - middle, steps)
                }
            }
        }
    }

    /// The measure of its first item, which stands beside the pointer to it, so that the item isn't looked at. It takes
    /// a step for each node on the way to it.
    pub fn first_sum<L: Ledger>(&self, steps: &mut Steps<L>) -> M
        requires { 0 < length self.now.0 }
        ensures value { (item : E) → slice_get self.now.0 0 ≡ Some item → result ≡ M.of_items (item ∷ []) }
        ensures work { steps.new ≤ steps.old + self.now.1 }
    {
        match &self.body {
            Body::Empty => unreachable!(),
            Body::Leaf(_) => self.sum,
            Body::Fork(node) => node.look(steps).left.first_sum(steps),
        }
    }

    /// Takes the item out of a tree without sides, which is left empty; None where it has none. It takes no step.
    #[inline]
    pub fn take_leaf(&mut self) -> Option<E>
        requires { self.old.1 ≡ 0 }
        ensures left { self.new ≡ ([], 0) }
        ensures item { MatchOption result (self.old.0 ≡ []) (λ e. self.old.0 ≡ e ∷ []) }
    {
        let body = mem::replace(&mut self.body, Body::Empty);
        self.len = 0;
        self.sum = M::nothing();
        match body {
            Body::Empty => None,
            Body::Leaf(item) => Some(item),
            Body::Fork(_) => unreachable!(),
        }
    }

    /// Makes this the tree of one item. It takes no node, and at most one step. Where the item's measure doesn't fit
    /// the tree is as before.
    #[inline]
    pub fn set_leaf<L: Ledger>(&mut self, item: E, steps: &mut Steps<L>) -> Result<(), AllocError>
        ensures value { OnOk result (self.new ≡ (item ∷ [], 0)) }
        ensures same { OnErr result (self.new ≡ self.old) }
        ensures work { steps.new ≤ steps.old + 1 }
    {
        self.sum = M::of_item(&item, steps)?;
        self.height = 0;
        self.len = 1;
        self.body = Body::Leaf(item);
        Ok(())
    }

    /// The tree of what stands in the place of an item. It takes a node where that is two items.
    pub fn made<L: Ledger>(
        alloc: Global,
        edit: Edit<E>,
        steps: &mut Steps<L>,
    ) -> Result<Tree<E, M>, AllocError>
        ensures items { IfOk result (λ tree. tree.0 ≡ made edit) }
        ensures height { IfOk result (λ tree. tree.1 ≤ 1) }
        ensures work { steps.new ≤ steps.old + 2 }
    {
        match edit {
            Edit::Put(item) => Tree::leaf(item, steps),
            Edit::Pair(first, second) => {
                let left = Tree::leaf(first, steps)?;
                let right = Tree::leaf(second, steps)?;
                Tree::fork(alloc, left, right)
            }
            Edit::Cut => Ok(Tree::empty()),
        }
    }
}

impl<E: Share + Drop, M: Measure<E>> Sides<E, M> {
    ghost use Rattle.balanced_tree.specs.Sides.{DifferByAtMost, Settles, Shift};
    ghost use Rattle.balanced_tree.specs.Edits.{edited};

    /// Takes both sides and makes one tree of them, in balance, of which one may be empty. It stands alone, so that an
    /// edit that joins nothing has no room to clear for it.
    #[inline(never)]
    fn joined<L: Ledger>(
        &mut self,
        alloc: Global,
        steps: &mut Steps<L>,
    ) -> Result<Tree<E, M>, AllocError>
        requires near { DifferByAtMost 2 self.old.left.1 self.old.right.1 }
        ensures items { IfOk result (λ both. both.0 ≡ self.old.left.0 ++ self.old.right.0) }
        ensures height { IfOk result (λ both. 0 < length self.old.left.0 → 0 < length self.old.right.0 →
            Settles self.old.left.1 self.old.right.1 both.1) }
        ensures all_right { IfOk result (λ both. length self.old.left.0 ≡ 0 → both.1 ≡ self.old.right.1) }
        ensures all_left { IfOk result (λ both. length self.old.right.0 ≡ 0 → 0 < length self.old.left.0 →
            both.1 ≡ self.old.left.1) }
        ensures work { steps.new ≤ steps.old + 2 }
    {
        let (left, right) = self.taken();
        let (l, r) = (left.height(), right.height());
        if left.len() == 0 {
            Ok(right)
        } else if right.len() == 0 {
            Ok(left)
        } else if r < l && l - r > 1 {
            Tree::lean_left(alloc, left, right, steps)
        } else if l < r && r - l > 1 {
            Tree::lean_right(alloc, left, right, steps)
        } else {
            Tree::fork(alloc, left, right)
        }
    }

    /// Whether they are the sides of one tree where they stand: neither is empty, or higher by more than one.
    #[inline(always)]
    fn are_near(&self) -> bool
        ensures some_left { IsTrue result → 0 < length self.now.left.0 }
        ensures some_right { IsTrue result → 0 < length self.now.right.0 }
        ensures near { IsTrue result → DifferByAtMost 1 self.now.left.1 self.now.right.1 }
    {
        let (l, r) = (self.left.height(), self.right.height());
        self.left.len() > 0 && self.right.len() > 0 && l.abs_diff(r) <= 1
    }

    /// Edits the item at that place of the two sides, one after the other.
    #[cycle(edit)]
    #[inline(always)]
    #[tactic(auto, using(crate::proofs::EditLaws::edited_left, crate::proofs::EditLaws::edited_right))]
    fn edit<L: Ledger>(
        &mut self,
        alloc: Global,
        at: u64,
        edit: Edit<E>,
        steps: &mut Steps<L>,
    ) -> Result<(), AllocError>
        requires within { at < length (self.old.left.0 ++ self.old.right.0) }
        requires some_left { 0 < length self.old.left.0 }
        requires some_right { 0 < length self.old.right.0 }
        requires near { DifferByAtMost 1 self.old.left.1 self.old.right.1 }
        ensures items { OnOk result (self.new.left.0 ++ self.new.right.0 ≡
            edited (self.old.left.0 ++ self.old.right.0) at edit) }
        ensures shift { OnOk result (Shift self.old.left self.old.right self.new.left self.new.right) }
        ensures work { steps.new ≤ steps.old + 3 * max self.old.left.1 self.old.right.1 + 2 }
    {
        let middle = self.left.len();
        if at < middle {
            return self.left.edit(alloc, at, edit, steps);
        }
        self.right.edit(alloc, at - middle, edit, steps)
    }
}

impl<E: Share + Drop, M: Measure<E>> Tree<E, M> {
    ghost use Rattle.balanced_tree.specs.Edits.{edited, made};

    /// Makes this tree of one item that of what stands in the place of the item. It stands alone, as `joined` does.
    #[inline(never)]
    fn remade<L: Ledger>(
        &mut self,
        alloc: Global,
        edit: Edit<E>,
        steps: &mut Steps<L>,
    ) -> Result<(), AllocError>
        requires one { length self.old.0 ≡ 1 }
        requires flat { self.old.1 ≡ 0 }
        ensures items { OnOk result (self.new.0 ≡ made edit) }
        ensures height { OnOk result (self.new.1 ≤ 1) }
        ensures work { steps.new ≤ steps.old + 2 }
    {
        match edit {
            Edit::Put(item) => {
                let Body::Leaf(place) = &mut self.body else {
                    unreachable!()
                };
                self.sum = M::of_item(&item, steps)?;
                *place = item;
            }
            other => *self = Tree::made(alloc, other, steps)?,
        }
        Ok(())
    }

    /// Edits the item at that place. It writes in place what no other tree holds. Where no memory is left the items may
    /// be gone.
    #[cycle(edit)]
    pub fn edit<L: Ledger>(
        &mut self,
        alloc: Global,
        at: u64,
        edit: Edit<E>,
        steps: &mut Steps<L>,
    ) -> Result<(), AllocError>
        requires { at < length self.old.0 }
        ensures items { OnOk result (self.new.0 ≡ edited self.old.0 at edit) }
        ensures least { OnOk result (self.old.1 ≤ self.new.1 + 1) }
        ensures most { OnOk result (self.new.1 ≤ self.old.1 + 1) }
        ensures emptied { OnOk result (length self.new.0 ≡ 0 → self.old.1 ≡ 0) }
        ensures work { steps.new ≤ steps.old + 3 * self.old.1 + 2 }
    {
        match &mut self.body {
            Body::Empty => unreachable!(),
            Body::Leaf(_) => return self.remade(alloc, edit, steps),
            Body::Fork(node) => {
                steps.tick();
                node.own(alloc)?;
                let Some(sides) = node.get_mut() else {
                    return Err(AllocError);
                };
                match sides.edit(alloc, at, edit, steps) {
                    Ok(()) => {}
                    Err(refused) => {
                        *self = Tree::empty();
                        return Err(refused);
                    }
                }
                if !sides.are_near() {
                    match sides.joined(alloc, steps) {
                        Ok(tree) => {
                            *self = tree;
                            return Ok(());
                        }
                        Err(refused) => {
                            *self = Tree::empty();
                            return Err(refused);
                        }
                    }
                }
                match Tree::outline(&sides.left, &sides.right) {
                    Ok(outline) => {
                        self.height = outline.height;
                        self.len = outline.len;
                        self.sum = outline.sum;
                        return Ok(());
                    }
                    Err(refused) => {
                        *self = Tree::empty();
                        return Err(refused);
                    }
                }
            }
        }
    }
}
