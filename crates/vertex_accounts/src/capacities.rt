//! The units of a type at each vertex and below it.
ghost use Rattle.std.specs.Prelude.{◌≡◌, ℕ, ◌<◌, length, IfOk};
ghost use Rattle.book_laws.specs.Amounts.{capacity};
ghost use Rattle.vertex_accounts.specs.Prefixes.{units_in, IsPrefix};

use flux_defs::{List, Vertex};
use resource_graph::Graph;
use std::alloc::{AllocError, Global};

/// Sums over the vertices of one type, by which its capacity at any vertex is a difference of two: item i is the sum of
/// the sizes of those before vertex i.
#[derive(Drop)]
pub struct Capacities {
    pub(crate) kind: u32,
    pub(crate) sums: List<u64>,
}

impl Capacities {
    ghost use Rattle.vertex_accounts.specs.Capacities.{AreOf};

    /// The capacities of a type of the graph. A sum past the greatest number is answered as want of memory.
    pub fn of(alloc: Global, graph: &Graph, kind: u32) -> Result<Capacities, AllocError>
        ensures { IfOk result (λ all. AreOf graph.now.resources.vertices kind all) }
    {
        let mut sums = Vec::new(alloc);
        sums.push(0)?;
        let mut sum = 0u64;
        for vertex in graph.vertices().items() {
            sum = sum.checked_add(units_of(vertex, kind)).ok_or(AllocError)?;
            sums.push(sum)?;
        }
        Ok(Capacities {
            kind,
            sums: List::of_vec(sums),
        })
    }

    /// The capacity at a vertex; past the last vertex 0.
    pub fn at(&self, graph: &Graph, vertex: u32) -> u64
        requires { AreOf graph.now.resources.vertices self.now.kind self.now }
        ensures { result ≡ capacity graph.now.resources.vertices self.now.kind vertex }
    {
        graph.is_valid();
        if vertex >= graph.len() {
            return 0;
        }
        let past = graph.past(vertex);
        let sums = self.sums.items();
        sums[past as usize] - sums[vertex as usize]
    }
}

/// The vertex's units, where it is of the type.
fn units_of(vertex: &Vertex, kind: u32) -> u64
    ensures { result ≡ units_in kind vertex.now }
{
    if vertex.kind == kind {
        return vertex.size;
    }
    0
}
