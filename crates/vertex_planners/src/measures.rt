//! What claims amount to, by vertices.
ghost use Rattle.std.specs.Prelude.{◌≡◌, ℕ, ◌+◌, ◌*◌, ◌<◌, ◌≤◌, ◌==◌, if◌then◌else◌, List, sum_by, length, IfOk, OnOk};
ghost use Rattle.std.specs.Prelude.{IfSome, IsTrue};
ghost use Rattle.std.specs.List.{AllByRecursion};
ghost use Rattle.flux_defs.specs.declared.claims.Claim.{Claim};
ghost use Rattle.flux_defs.specs.Graph.{chain, parent_of};
ghost use Rattle.flux_defs.specs.Jobs.{vertex_of};
ghost use Rattle.vertex_planners.specs.Numbers.{amount_at, count_of, HasKeysBelow};
ghost use Rattle.vertex_planners.specs.Chains.{sum_on, ParentsIn};
ghost use Rattle.vertex_planners.specs.Counting.{counts_at};

use crate::amounts::Amounts;
use flux_defs::{Claim, Vertex};
use resource_graph::Graph;
use std::alloc::{AllocError, Global};

/// A number of each claim.
pub trait Measure {
    /// What a claim amounts to.
    ghost amount: { Self → Claim → ℕ };

    /// The claim's number.
    fn amount_of(&self, claim: &Claim) -> u64
        ensures { result ≡ amount self.now claim.now };
}

/// By the vertices of the claims, the sum of their numbers. A sum past the greatest number is answered as want of
/// memory.
pub fn amounts_on<M: Measure>(
    alloc: Global,
    measure: &M,
    claims: &[Claim],
) -> Result<Amounts, AllocError>
    ensures sums { IfOk result (λ amounts. (v : ℕ) →
        amount_at amounts v ≡ sum_by (λ c. if vertex_of c == v then M.amount measure.now c else 0) claims.now) }
    ensures keys { IfOk result
        (λ amounts. (most : ℕ) → AllByRecursion (λ c. vertex_of c < most) claims.now → HasKeysBelow most amounts) }
    ensures few { IfOk result (λ amounts. count_of amounts ≤ length claims.now) }
{
    let mut amounts = Amounts::new(alloc);
    for claim in claims {
        add_some(&mut amounts, claim.vertex(), measure.amount_of(claim))?;
    }
    Ok(amounts)
}

/// So much more for one vertex. Where that is nothing, no number is kept for it.
fn add_some(amounts: &mut Amounts, vertex: u32, more: u64) -> Result<(), AllocError>
    ensures sum { OnOk result
        ((v : ℕ) → amount_at amounts.new v ≡ amount_at amounts.old v + (if vertex == v then more else 0)) }
    ensures keys { OnOk result
        ((most : ℕ) → vertex < most → HasKeysBelow most amounts.old → HasKeysBelow most amounts.new) }
    ensures count { OnOk result (count_of amounts.new ≤ count_of amounts.old + 1) }
{
    if more == 0 {
        return Ok(());
    }
    amounts.add(vertex, more)
}

/// So much more for the vertex and each one above it, at most so many.
fn raise(
    amounts: &mut Amounts,
    vertices: &[Vertex],
    most: usize,
    from: Option<u32>,
    more: u64,
) -> Result<(), AllocError>
    ensures sums { OnOk result
        ((v : ℕ) → amount_at amounts.new v ≡ amount_at amounts.old v + sum_on v more (chain vertices.now most from)) }
    ensures keys { OnOk result (ParentsIn vertices.now → IfSome from (λ v. v < length vertices.now) →
        HasKeysBelow (length vertices.now) amounts.old → HasKeysBelow (length vertices.now) amounts.new) }
    ensures few { OnOk result (count_of amounts.new ≤ count_of amounts.old + length (chain vertices.now most from)) }
{
    let Some(vertex) = from else {
        return Ok(());
    };
    if most == 0 {
        return Ok(());
    }
    amounts.add(vertex, more)?;
    let above = parent_in(vertices, vertex);
    raise(amounts, vertices, most - 1, above, more)?;
    Ok(())
}

/// The vertex that contains this one, if one does.
pub fn parent_in(vertices: &[Vertex], vertex: u32) -> Option<u32>
    ensures { result ≡ parent_of vertices.now vertex }
{
    match vertices.get(vertex as usize) {
        Some(found) => found.parent,
        None => None,
    }
}

/// By vertices, the sum of the numbers of the claims that count there: those on the vertex and below it, but for holds
/// of the vertex itself, which count above it alone; at the root these count too. A sum past the greatest number is
/// answered as want of memory.
pub fn amounts_within<M: Measure>(
    alloc: Global,
    graph: &Graph,
    measure: &M,
    claims: &[Claim],
) -> Result<Amounts, AllocError>
    ensures sums { IfOk result (λ amounts. (v : ℕ) → amount_at amounts v ≡
        sum_by (λ c. if counts_at graph.now.resources.vertices v c then M.amount measure.now c else 0) claims.now) }
    ensures keys { IfOk result
        (λ amounts. AllByRecursion (λ c. vertex_of c < length graph.now.resources.vertices) claims.now →
        HasKeysBelow (length graph.now.resources.vertices) amounts) }
    ensures few { IfOk result
        (λ amounts. AllByRecursion (λ c. vertex_of c < length graph.now.resources.vertices) claims.now →
        count_of amounts ≤ 16 * length claims.now) }
{
    let mut amounts = Amounts::new(alloc);
    let mut rise = Rise {
        from: None,
        more: 0,
    };
    for claim in claims {
        let next = Rise {
            from: counted_from(graph, claim),
            more: measure.amount_of(claim),
        };
        rise = rise.with(&mut amounts, graph, next)?;
    }
    rise.made(&mut amounts, graph)?;
    Ok(amounts)
}

/// So much more for a vertex and each one above it; for none where there is no vertex.
#[derive(Clone, Copy, Debug)]
pub(crate) struct Rise {
    pub(crate) from: Option<u32>,
    pub(crate) more: u64,
}

impl Rise {
    ghost use Rattle.vertex_planners.specs.Rises.{rise_at, weight_of, IsInside};

    /// Makes it.
    fn made(self, amounts: &mut Amounts, graph: &Graph) -> Result<(), AllocError>
        ensures sums { OnOk result ((v : ℕ) → amount_at amounts.new v ≡
            amount_at amounts.old v + rise_at graph.now.resources.vertices self v) }
        ensures keys { OnOk result (IsInside graph.now.resources.vertices self →
            HasKeysBelow (length graph.now.resources.vertices) amounts.old →
            HasKeysBelow (length graph.now.resources.vertices) amounts.new) }
        ensures few { OnOk result (IsInside graph.now.resources.vertices self →
            count_of amounts.new ≤ count_of amounts.old + weight_of self) }
    {
        if self.more == 0 {
            return Ok(());
        }
        let vertices = graph.vertices().items();
        raise(amounts, vertices, vertices.len(), self.from, self.more)?;
        Ok(())
    }

    /// This one and the next one: both in one where they begin at one vertex, and else this one is made.
    fn with(self, amounts: &mut Amounts, graph: &Graph, next: Rise) -> Result<Rise, AllocError>
        ensures sums { IfOk result (λ rest. (v : ℕ) →
            amount_at amounts.new v + rise_at graph.now.resources.vertices rest v ≡ amount_at amounts.old v
            + (rise_at graph.now.resources.vertices self v + rise_at graph.now.resources.vertices next v)) }
        ensures inside { IfOk result (λ rest. IsInside graph.now.resources.vertices self →
            IsInside graph.now.resources.vertices next → IsInside graph.now.resources.vertices rest) }
        ensures keys { IfOk result (λ rest. IsInside graph.now.resources.vertices self →
            HasKeysBelow (length graph.now.resources.vertices) amounts.old →
            HasKeysBelow (length graph.now.resources.vertices) amounts.new) }
        ensures few { IfOk result (λ rest. IsInside graph.now.resources.vertices self →
            count_of amounts.new + weight_of rest ≤ count_of amounts.old + weight_of self + 16) }
    {
        if next.more == 0 {
            return Ok(self);
        }
        if is_same(self.from, next.from) {
            let Some(more) = self.more.checked_add(next.more) else {
                return Err(AllocError);
            };
            return Ok(Rise {
                from: next.from,
                more,
            });
        }
        self.made(amounts, graph)?;
        Ok(next)
    }
}

/// Whether both are one vertex.
fn is_same(one: Option<u32>, other: Option<u32>) -> bool
    ensures { IsTrue result → one ≡ other }
{
    match (one, other) {
        (Some(one), Some(other)) => one == other,
        _ => false,
    }
}

/// The vertex from which on upward the claim counts.
fn counted_from(graph: &Graph, claim: &Claim) -> Option<u32>
    ensures counts { (v more : ℕ) → sum_on v more (chain graph.now.resources.vertices
        (length graph.now.resources.vertices) result)
        ≡ (if counts_at graph.now.resources.vertices v claim.now then more else 0) }
    ensures inside { vertex_of claim.now < length graph.now.resources.vertices →
        IfSome result (λ u. u < length graph.now.resources.vertices) }
{
    graph.is_valid();
    match claim {
        Claim::Hold { vertex } => {
            if *vertex == 0 {
                return Some(0);
            }
            return parent_in(graph.vertices().items(), *vertex);
        }
        Claim::Take { vertex, .. } => return Some(*vertex),
        Claim::Pass { vertex } => return Some(*vertex),
    }
}
