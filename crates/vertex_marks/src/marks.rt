//! Marks of vertices.
ghost use Rattle.std.specs.Prelude.{◌≡◌, ◌≢◌, ℕ, ◌+◌, ◌*◌, ◌<◌, ◌≤◌, Bool, not, List, [], length, IfOk};
ghost use Rattle.flux_defs.specs.declared.vertices.Vertex.{Vertex};
ghost use Rattle.flux_defs.specs.Digits.{dig};
ghost use Rattle.resource_graph.specs.NamedGraph.{vertices_of};
ghost use Rattle.resource_graph.specs.Chains.{chain_of};
ghost use Rattle.resource_graph.specs.Preorder.{InPreorder};
ghost use Rattle.vertex_marks.specs.Down.{is_among, is_shut, has_shut, marked};
ghost use Rattle.vertex_marks.specs.Marked.{AreMarks};

use crate::changing::{counted, written};
use flux_defs::{Steps, Vertex};
use node_store::Share;
use resource_graph::Graph;
use snapshot_store::Pages;
use std::alloc::{AllocError, Global};
use std::sync::ledger::Ledger;

/// Whether a vertex is down, and how many of the vertices at or below it are.
#[derive(Clone, Copy, Debug)]
pub struct Mark {
    pub down: bool,
    pub within: u64,
}

impl Share for Mark {
    fn share(&self) -> Result<Mark, AllocError> {
        Ok(*self)
    }
}

/// Which vertices of a graph are down. There are no marks before the first vertex goes down. A change writes the marks
/// of the vertex and of those above it alone, in place where no others share them; `share` keeps the old ones.
#[derive(Drop)]
pub struct Marks {
    pub(crate) count: u64,
    pub(crate) pages: Pages<Mark>,
}

impl Marks {
    /// Every vertex is up. It takes no memory.
    pub fn none() -> Marks
        ensures { (vertices : List Vertex) → AreMarks vertices [] result }
    {
        Marks {
            count: 0,
            pages: Pages::empty(),
        }
    }

    /// The same marks once more, without a copy.
    pub fn share(&self) -> Result<Marks, AllocError>
        ensures { IfOk result (λ same. same ≡ self.now) }
    {
        let pages = self.pages.snap()?;
        Ok(Marks {
            count: self.count,
            pages,
        })
    }

    /// The marks in which the vertex's status is changed: it is put at the end of the list, or taken out. What no
    /// others share is written in place, at the vertex and at those above it. Where no memory is left there are no
    /// marks.
    pub fn into_marked<L: Ledger>(
        self,
        alloc: Global,
        graph: &Graph,
        vertex: u32,
        down: bool,
        steps: &mut Steps<L>,
    ) -> Result<Marks, AllocError>
        requires { vertex < length (vertices_of graph.now) }
        ensures work { length self.pages ≡ length (vertices_of graph.now) →
            steps.new ≤ steps.old + 68 * dig (length (vertices_of graph.now) + 1) }
        ensures marks { (old : List ℕ) → AreMarks (vertices_of graph.now) old self → is_among old vertex ≡ not down →
            IfOk result (AreMarks (vertices_of graph.now) (marked old vertex down)) }
    {
        let Marks { count, pages } = self;
        let count = counted(count, down)?;
        let pages = written(alloc, pages, graph.vertices().items(), vertex, down, steps)?;
        Ok(Marks { count, pages })
    }

    /// The marks in which the vertex's status is changed, made as by `into_marked`, beside these.
    pub fn with_marked<L: Ledger>(
        &self,
        alloc: Global,
        graph: &Graph,
        vertex: u32,
        down: bool,
        steps: &mut Steps<L>,
    ) -> Result<Marks, AllocError>
        requires { vertex < length (vertices_of graph.now) }
        ensures work { length self.now.pages ≡ length (vertices_of graph.now) →
            steps.new ≤ steps.old + 68 * dig (length (vertices_of graph.now) + 1) }
        ensures marks { (old : List ℕ) →
            AreMarks (vertices_of graph.now) old self.now → is_among old vertex ≡ not down →
            IfOk result (AreMarks (vertices_of graph.now) (marked old vertex down)) }
    {
        let same = self.share()?;
        same.into_marked(alloc, graph, vertex, down, steps)
    }

    /// Whether the vertex itself is down. It takes no memory.
    pub fn is_down<L: Ledger>(&self, vertex: u32, steps: &mut Steps<L>) -> bool
        ensures value { (vertices : List Vertex) (down : List ℕ) → AreMarks vertices down self.now →
            vertex < length vertices → result ≡ is_among down vertex }
        ensures work { steps.new ≤ steps.old + 2 * dig (length self.now.pages + 1) }
        ensures none { self.now.count ≡ 0 → steps.new ≡ steps.old }
    {
        if self.count == 0 {
            return false;
        }
        match self.pages.get(u64::from(vertex), steps) {
            Some(mark) => mark.down,
            None => false,
        }
    }

    /// Whether the vertex or one below it is down. It takes no memory.
    pub fn has_shut<L: Ledger>(&self, vertex: u32, steps: &mut Steps<L>) -> bool
        ensures value { (vertices : List Vertex) (down : List ℕ) → AreMarks vertices down self.now →
            vertex < length vertices → result ≡ has_shut vertices down vertex }
        ensures work { steps.new ≤ steps.old + 2 * dig (length self.now.pages + 1) }
        ensures none { self.now.count ≡ 0 → steps.new ≡ steps.old }
    {
        if self.count == 0 {
            return false;
        }
        match self.pages.get(u64::from(vertex), steps) {
            Some(mark) => mark.within != 0,
            None => false,
        }
    }
    /// Whether the vertex or one above it is down: a look at each of them, sixteen at most. It takes no memory.
    pub fn shuts<L: Ledger>(&self, graph: &Graph, vertex: u32, steps: &mut Steps<L>) -> bool
        requires { vertex < length (vertices_of graph.now) }
        ensures value { (down : List ℕ) → AreMarks (vertices_of graph.now) down self.now →
            result ≡ is_shut (vertices_of graph.now) down vertex }
        ensures work { steps.new ≤ steps.old + 32 * dig (length self.now.pages + 1) }
        ensures none { self.now.count ≡ 0 → steps.new ≡ steps.old }
    {
        if self.count == 0 {
            return false;
        }
        self.shut_from(graph.vertices().items(), vertex, steps)
    }

    /// The same, from a vertex up.
    fn shut_from<L: Ledger>(&self, vertices: &[Vertex], vertex: u32, steps: &mut Steps<L>) -> bool
        requires order { InPreorder vertices.now }
        requires within { vertex < length vertices.now }
        ensures value { (down : List ℕ) → AreMarks vertices.now down self.now →
            result ≡ is_shut vertices.now down vertex }
        ensures work { steps.new ≤ steps.old
            + length (chain_of vertices.now vertex) * (2 * dig (length self.now.pages + 1)) }
    {
        if self.is_down(vertex, steps) {
            return true;
        }
        match vertices[vertex as usize].parent {
            Some(parent) => self.shut_from(vertices, parent, steps),
            None => false,
        }
    }
}
