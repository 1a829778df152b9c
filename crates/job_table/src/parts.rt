//! Parts of a table, as shared trees: the last hexadecimal digit of an id says in which of sixteen parts its row is,
//! the digit before it in which part of that part, and so on, until no other id has the same digits.
ghost use Rattle.std.specs.Prelude.{◌≡◌, ℕ, ◌+◌, ◌-◌, ◌*◌, ◌/◌, ◌%◌, ◌^◌, ◌<◌, ◌≤◌, List, [], ◌∷◌, length, replicate};
ghost use Rattle.std.specs.Prelude.{IfOk, OnOk, OnErr};
ghost use Rattle.std.specs.Ordering.{nat_cmp};
ghost use Rattle.std.specs.FinMap.{find};
ghost use Rattle.job_table.specs.Parts.{parts_in, entries_from, IsBranch, Sets};

use crate::tables::Row;
use flux_defs::Steps;
use node_store::{Node, Share, Sixteen, Vacant};
use std::alloc::{AllocError, Global};
use std::marker::Model;
use std::sync::ledger::Ledger;

/// A part of a table: nothing, one row, or sixteen parts. Contracts see its keys with their rows, and its height, which
/// is how many nodes stand one below the other. A key is what is left of an id without the digits that led to the part.
#[cycle(part)]
#[derive(Drop)]
pub struct Part {
    body: Body,
}

/// What a part is made of.
#[cycle(part)]
#[derive(Drop)]
enum Body {
    Empty,
    Entry(u64, Row),
    Fork(Node<Branch>),
}

/// Sixteen parts, one for each last digit of a key; `below` is how many digits are left after it.
#[cycle(part)]
#[derive(Drop)]
pub struct Branch {
    below: u64,
    parts: Sixteen<Part>,
}

impl Model for Part {
    ghost use Rattle.std.specs.Prelude.{ℕ, List};
    ghost use Rattle.job_table.specs.declared.tables.Row.{Row};

    ghost Value = { List (ℕ × Row) × ℕ };

    ghost use Rattle.job_table.specs.Parts.{entries_of, height_of, IsLevel};

    ghost view = { λ part. (entries_of part.body, height_of part.body) };

    ghost invariant = { λ part. IsLevel part.body };

    ghost size = { λ value. value.1 };

    ghost use Rattle.job_table.specs.Heights.{falls};

    ghost size_decreases = { falls };
}

impl Vacant for Part {
    ghost use Rattle.std.specs.Prelude.{[]};

    ghost vacant = { ([], 0) };

    fn vacant() -> Part {
        Part { body: Body::Empty }
    }
}

impl Share for Part {
    fn share(&self) -> Result<Part, AllocError> {
        let body = match &self.body {
            Body::Empty => Body::Empty,
            Body::Entry(key, row) => Body::Entry(*key, *row),
            Body::Fork(node) => Body::Fork(node.share()?),
        };
        Ok(Part { body })
    }
}

impl Share for Branch {
    fn share(&self) -> Result<Branch, AllocError> {
        let parts = self.parts.share()?;
        Ok(Branch {
            below: self.below,
            parts,
        })
    }
}

impl Part {
    ghost use Rattle.job_table.specs.Parts.{IsPart};

    /// The part of one row. It takes no memory.
    fn entry(key: u64, row: Row) -> Part
        ensures { result ≡ ((key, row) ∷ [], 0) }
    {
        Part {
            body: Body::Entry(key, row),
        }
    }

    /// The row of a key, and `None` exactly where it has none. It takes a step for each node on the way to it.
    pub fn find<L: Ledger>(&self, key: u64, steps: &mut Steps<L>) -> Option<Row>
        ensures row { result ≡ find nat_cmp key self.now.0 }
        ensures work { steps.new ≤ steps.old + self.now.1 }
    {
        match &self.body {
            Body::Empty => None,
            Body::Entry(other, row) => {
                if *other == key {
                    return Some(*row);
                }
                None
            }
            Body::Fork(node) => {
                let branch = node.look(steps);
                branch.parts.get(key % 16).find(key / 16, steps)
            }
        }
    }

    /// Stores the row at a key of at most so many digits, in the nodes of this part that no other holds and in copies
    /// of the others. After want of memory the part is as before.
    #[cycle(setting)]
    pub fn set<L: Ledger>(
        &mut self,
        alloc: Global,
        digits: u64,
        key: u64,
        row: Row,
        steps: &mut Steps<L>,
    ) -> Result<(), AllocError>
        requires part { IsPart digits self.old }
        requires key { key < 16 ^ digits }
        ensures sets { OnOk result (Sets self.old.0 self.new.0 key row) }
        ensures part { OnOk result (IsPart digits self.new) }
        ensures same { OnErr result (self.new ≡ self.old) }
        ensures work { steps.new ≤ steps.old + digits }
    {
        match &mut self.body {
            Body::Empty => {
                *self = Part::entry(key, row);
                return Ok(());
            }
            Body::Entry(other, old) => {
                if *other == key {
                    *old = row;
                    return Ok(());
                }
                let mut node = Node::of(alloc, Branch::of(digits - 1, *other, *old))?;
                set_below(alloc, &mut node, key, row, steps)?;
                *self = Part {
                    body: Body::Fork(node),
                };
                return Ok(());
            }
            Body::Fork(node) => {
                set_below(alloc, node, key, row, steps)?;
                return Ok(());
            }
        }
    }
}

/// Stores the row at a key of at most one digit more than the node's parts have, in this node and those below it that
/// no other holds, and in copies of the others. After want of memory the parts are as before.
#[cycle(setting)]
fn set_below<L: Ledger>(
    alloc: Global,
    node: &mut Node<Branch>,
    key: u64,
    row: Row,
    steps: &mut Steps<L>,
) -> Result<(), AllocError>
    requires level { IsBranch node.old }
    requires key { key < 16 ^ (node.old.below + 1) }
    ensures sets { OnOk result
        (Sets (entries_from 0 (parts_in node.old)) (entries_from 0 (parts_in node.new)) key row) }
    ensures below { node.new.below ≡ node.old.below }
    ensures level { IsBranch node.new }
    ensures same { OnErr result (parts_in node.new ≡ parts_in node.old) }
    ensures work { steps.new ≤ steps.old + (node.old.below + 1) }
{
    steps.tick();
    node.own(alloc)?;
    let Some(branch) = node.get_mut() else {
        return Err(AllocError);
    };
    let below = branch.below;
    match branch
        .parts
        .get_mut(key % 16)
        .set(alloc, below, key / 16, row, steps)
    {
        Ok(()) => return Ok(()),
        Err(refused) => return Err(refused),
    }
}

impl Branch {
    /// Sixteen empty parts, of which the keys have at most so many digits.
    fn vacant(below: u64) -> Branch
        ensures below { result.below ≡ below }
        ensures parts { parts_in result ≡ replicate 16 ([], 0) }
    {
        Branch {
            below,
            parts: Sixteen::vacant(),
        }
    }

    /// The node of one row.
    fn of(below: u64, key: u64, row: Row) -> Branch
        requires { key < 16 ^ (below + 1) }
        ensures below { result.below ≡ below }
        ensures level { IsBranch result }
        ensures sets { Sets [] (entries_from 0 (parts_in result)) key row }
    {
        let mut branch = Branch::vacant(below);
        *branch.parts.get_mut(key % 16) = Part::entry(key / 16, row);
        branch
    }
}
