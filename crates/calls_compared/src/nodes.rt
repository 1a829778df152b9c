//! A node that two hold, and sixteen parts.

use node_store::{Node, Share, Sixteen, Vacant};
use std::alloc::{AllocError, Global};

/// A number as a node holds it.
#[derive(Clone, Copy, Debug, PartialEq, Eq)]
pub struct Number {
    pub n: u64,
}

impl Share for Number {
    fn share(&self) -> Result<Number, AllocError> {
        Ok(*self)
    }
}

impl Vacant for Number {
    ghost vacant = { record { n = 0 } };

    fn vacant() -> Number {
        Number { n: 0 }
    }
}

fn node_of(alloc: Global, n: u64) -> Result<Node<Number>, AllocError> {
    match Node::new(alloc, Number { n }) {
        Ok(node) => Ok(node),
        Err((_, refused)) => Err(refused),
    }
}

fn number_in(node: &mut Node<Number>) -> Option<u64> {
    match node.get_mut() {
        Some(number) => Some(number.n),
        None => None,
    }
}

/// What a node of 7 lends while another holds it too; what the two lend once one of them was made its own and 8 was
/// written there; and what the other lends once 9 was stored there.
pub fn lent(alloc: Global) -> Result<[Option<u64>; 4], AllocError> {
    let mut node = node_of(alloc, 7)?;
    let mut old = node.share()?;
    let held = number_in(&mut node);
    node.own(alloc)?;
    if let Some(number) = node.get_mut() {
        *number = Number { n: 8 };
    }
    let (new, kept) = (number_in(&mut node), number_in(&mut old));
    match old.set(alloc, Number { n: 9 }) {
        Ok(()) => {}
        Err((_, refused)) => return Err(refused),
    }
    Ok([held, new, kept, number_in(&mut old)])
}

/// How many of sixteen parts don't hold their own place from 1 on, in a copy that was made before the part at 3 was
/// emptied; and what that part holds.
pub fn parts() -> Result<(u64, u64), AllocError> {
    let mut parts: Sixteen<Number> = Sixteen::vacant();
    for place in 0..16 {
        *parts.get_mut(place) = Number { n: place + 1 };
    }
    let copy = parts.share()?;
    *parts.get_mut(3) = Number { n: 0 };
    let mut differing = 0u64;
    for place in 0..16 {
        if *copy.get(place) != (Number { n: place + 1 }) {
            differing = differing.wrapping_add(1);
        }
    }
    Ok((differing, parts.get(3).n))
}
