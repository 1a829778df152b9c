//! Changes of marks.
ghost use Rattle.std.specs.Prelude.{◌≡◌, ℕ, ◌+◌, ◌-◌, ◌*◌, ◌<◌, ◌≤◌, not, if◌then◌else◌, List, [], length, IfOk, OnOk};
ghost use Rattle.flux_defs.specs.Digits.{dig};
ghost use Rattle.resource_graph.specs.Chains.{chain_of};
ghost use Rattle.resource_graph.specs.Preorder.{InPreorder};
ghost use Rattle.vertex_marks.specs.Marked.{AreShifted, HaveMarks, IsShiftedAt, IsToldAt, MayMark};
ghost use Rattle.vertex_marks.specs.Down.{is_among, marked, AreDown};

use crate::marks::Mark;
use flux_defs::{Steps, Vertex};
use snapshot_store::Pages;
use std::alloc::{AllocError, Global};
use std::sync::ledger::Ledger;

/// A mark for each of so many vertices, each of which is up.
pub(crate) fn all_up<L: Ledger>(
    alloc: Global,
    vertices: &[Vertex],
    steps: &mut Steps<L>,
) -> Result<Pages<Mark>, AllocError>
    ensures { IfOk result (HaveMarks vertices.now []) }
{
    let mut pages = Pages::empty();
    'making: while pages.len() < vertices.len() as u64 {
        let up = Mark {
            down: false,
            within: 0,
        };
        match pages.push(alloc, up, steps) {
            Ok(()) => {}
            Err((_, refused)) => return Err(refused),
        }
    }
    Ok(pages)
}

/// One more, or one fewer, is down at or below the vertex. A count of 2^64 - 1 isn't raised: that is answered as want
/// of memory.
fn shift_at<L: Ledger>(
    alloc: Global,
    pages: &mut Pages<Mark>,
    vertex: u32,
    down: bool,
    steps: &mut Steps<L>,
) -> Result<(), AllocError>
    requires { vertex < length pages.old }
    ensures shifted { OnOk result (IsShiftedAt vertex down pages.old pages.new) }
    ensures work { steps.new ≤ steps.old + 4 * dig (length pages.old + 1) }
{
    let Some(mark) = pages.get(u64::from(vertex), steps) else {
        unreachable!()
    };
    if mark.within == u64::MAX {
        return Err(AllocError);
    }
    let within = if down {
        mark.within + 1
    } else {
        mark.within.saturating_sub(1)
    };
    let shifted = Mark {
        down: mark.down,
        within,
    };
    match pages.put(alloc, u64::from(vertex), shifted, steps) {
        Ok(()) => Ok(()),
        Err((_, refused)) => Err(refused),
    }
}

/// The mark of the vertex tells that it is down, or up.
pub(crate) fn tell<L: Ledger>(
    alloc: Global,
    pages: &mut Pages<Mark>,
    vertex: u32,
    down: bool,
    steps: &mut Steps<L>,
) -> Result<(), AllocError>
    requires { vertex < length pages.old }
    ensures told { OnOk result (IsToldAt vertex down pages.old pages.new) }
    ensures work { steps.new ≤ steps.old + 4 * dig (length pages.old + 1) }
{
    let Some(mark) = pages.get(u64::from(vertex), steps) else {
        unreachable!()
    };
    let told = Mark {
        down,
        within: mark.within,
    };
    match pages.put(alloc, u64::from(vertex), told, steps) {
        Ok(()) => Ok(()),
        Err((_, refused)) => Err(refused),
    }
}

/// One more, or one fewer, is down at or below the vertex and each vertex above it.
pub(crate) fn shift<L: Ledger>(
    alloc: Global,
    pages: &mut Pages<Mark>,
    vertices: &[Vertex],
    vertex: u32,
    down: bool,
    steps: &mut Steps<L>,
) -> Result<(), AllocError>
    requires order { InPreorder vertices.now }
    requires within { vertex < length vertices.now }
    requires whole { length pages.old ≡ length vertices.now }
    ensures shifted { OnOk result (AreShifted vertices.now vertex down pages.old pages.new) }
    ensures work { steps.new ≤ steps.old
        + length (chain_of vertices.now vertex) * (4 * dig (length vertices.now + 1)) }
{
    match shift_at(alloc, pages, vertex, down, steps) {
        Ok(()) => {}
        Err(refused) => return Err(refused),
    }
    match vertices[vertex as usize].parent {
        Some(parent) => shift(alloc, pages, vertices, parent, down, steps),
        None => Ok(()),
    }
}

/// The marks of a graph's vertices: these, or where there are none yet, marks that tell of each that it is up.
fn made_for<L: Ledger>(
    alloc: Global,
    pages: Pages<Mark>,
    vertices: &[Vertex],
    steps: &mut Steps<L>,
) -> Result<Pages<Mark>, AllocError>
    requires { 0 < length vertices.now }
    ensures whole { IfOk result (λ made. length made ≡ length vertices.now) }
    ensures ready { length pages ≡ length vertices.now → steps.new ≡ steps.old }
    ensures kept { (down : List ℕ) → MayMark vertices.now down pages → IfOk result (HaveMarks vertices.now down) }
{
    if pages.len() == vertices.len() as u64 {
        return Ok(pages);
    }
    all_up(alloc, vertices, steps)
}

/// The marks of the list that is changed at the vertex, from those of the list or from none.
pub(crate) fn written<L: Ledger>(
    alloc: Global,
    pages: Pages<Mark>,
    vertices: &[Vertex],
    vertex: u32,
    down: bool,
    steps: &mut Steps<L>,
) -> Result<Pages<Mark>, AllocError>
    requires order { InPreorder vertices.now }
    requires within { vertex < length vertices.now }
    ensures work { length pages ≡ length vertices.now → steps.new ≤ steps.old
        + (length (chain_of vertices.now vertex) + 1) * (4 * dig (length vertices.now + 1)) }
    ensures have { (old : List ℕ) → MayMark vertices.now old pages → AreDown vertices.now old →
        is_among old vertex ≡ not down → IfOk result (HaveMarks vertices.now (marked old vertex down)) }
{
    let mut made = made_for(alloc, pages, vertices, steps)?;
    shift(alloc, &mut made, vertices, vertex, down, steps)?;
    tell(alloc, &mut made, vertex, down, steps)?;
    Ok(made)
}

/// One more, or one fewer. A count of 2^64 - 1 isn't raised: that is answered as want of memory.
pub(crate) fn counted(count: u64, down: bool) -> Result<u64, AllocError>
    ensures { IfOk result (λ n. n ≡ (if down then count + 1 else count - 1)) }
{
    if count == u64::MAX {
        return Err(AllocError);
    }
    if down {
        return Ok(count + 1);
    }
    Ok(count.saturating_sub(1))
}
