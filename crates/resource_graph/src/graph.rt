//! The graph and its queries.
ghost use Rattle.std.specs.Prelude.{◌≡◌, ◌≢◌, ℕ, ◌<◌, ◌≤◌, ◌↔◌, IsTrue, IfOk, length, min, reverse, slice_get};
ghost use Rattle.std.specs.Prelude.{MatchOption};
ghost use Rattle.std.specs.Option.{option_copied};
ghost use Rattle.std.specs.List.{flat_map};
ghost use Rattle.flux_defs.specs.Graph.{HasKind, is_below, is_pool_kind};
ghost use Rattle.resource_graph.specs.Chains.{AllBelow};
ghost use Rattle.resource_graph.specs.NamedGraph.{IsWhole, name_step, path_text, vertices_of};
ghost use Rattle.resource_graph.specs.Paths.{PathsDiffer};
ghost use Rattle.resource_graph.specs.Made.{named_graph};
ghost use Rattle.resource_graph.specs.Tables.{IsPast, IsNodeOf, IsRanked, IsNamedKind, contains_kind, IsNextOfKind};
ghost use Rattle.resource_graph.specs.Tables.{HasNoneOfKind, IsNextIn, HasNoneIn, IsFirstIndex, rank_at, name_at};
ghost use Rattle.resource_graph.specs.Tables.{kind_count, IsCountIn, IsRunOfKind};
ghost use Rattle.std.specs.List.Sorted.{IsStrictlyIncreasing};

use crate::chains::chain_up;
use crate::paths::{Places, place_of, place_table};
use crate::tables::{list_table, nested_table, node_table, past_table, pool_table, rank_table};
use flux_defs::{List, Text, Vertex};
use std::alloc::{AllocError, Global};
use std::collections::BTreeMap;
use std::marker::Model;
use text_forms::index_of;

/// Up to so many vertices are counted one by one, which takes no longer than a search.
const FEW: u32 = 16;

/// A valid resource graph: vertices in preorder, with their texts. Contracts see its types and vertices, and by the
/// vertex's number its name, basename, unit and properties.
#[derive(Debug, Drop)]
pub struct Graph {
    kinds: List<Text>,
    vertices: List<Vertex>,
    names: List<Text>,
    bases: List<Text>,
    units: List<Text>,
    properties: List<List<Text>>,
    past: Vec<u32>,
    nodes: Vec<Option<u32>>,
    lists: Vec<Vec<u32>>,
    ranked: BTreeMap<u32, u32>,
    pools: Vec<bool>,
    nested: Vec<bool>,
    places: Places,
}

impl Model for Graph {
    ghost use Rattle.resource_graph.specs.NamedGraph.{NamedGraph};

    ghost Value = { NamedGraph };

    ghost use Rattle.resource_graph.specs.HasTables.{graph_of, HasTables};

    ghost view = { graph_of };

    ghost invariant = { HasTables };
}

/// By the vertex's number, its texts.
#[derive(Debug, Drop)]
pub struct Texts {
    pub names: List<Text>,
    pub bases: List<Text>,
    pub units: List<Text>,
    pub properties: List<List<Text>>,
}

impl Graph {
    /// The graph of these types, vertices and texts, which are a valid graph: types by their first vertices, vertices
    /// in preorder. Near-linear in the vertices; the only error is want of memory.
    pub fn of(
        alloc: Global,
        kinds: List<Text>,
        vertices: List<Vertex>,
        texts: Texts,
    ) -> Result<Graph, AllocError>
        requires { IsWhole (named_graph kinds vertices texts) }
        ensures { IfOk result (λ graph. graph ≡ named_graph kinds vertices texts) }
    {
        let past = past_table(alloc, vertices.items())?;
        let nodes = node_table(alloc, vertices.items())?;
        let lists = list_table(alloc, vertices.items(), kinds.len())?;
        let ranked = rank_table(alloc, vertices.items())?;
        let pools = pool_table(alloc, vertices.items(), kinds.len())?;
        let nested = nested_table(alloc, vertices.items(), kinds.len())?;
        let places = place_table(alloc, vertices.items(), texts.names.items())?;
        let Texts {
            names,
            bases,
            units,
            properties,
        } = texts;
        Ok(Graph {
            kinds,
            vertices,
            names,
            bases,
            units,
            properties,
            past,
            nodes,
            lists,
            ranked,
            pools,
            nested,
            places,
        })
    }

    /// Its vertices, by their numbers in preorder.
    pub fn vertices(&self) -> &List<Vertex>
        ensures value { result.now ≡ self.now.resources.vertices }
        ensures valid { IsWhole self.now }
    {
        &self.vertices
    }

    /// A law: every graph is valid. It does nothing.
    pub fn is_valid(&self)
        ensures { IsWhole self.now }
    {
        let _ = &self.vertices;
    }

    /// How many vertices it has.
    pub fn len(&self) -> u32
        ensures { result ≡ length self.now.resources.vertices }
    {
        self.vertices.len() as u32
    }

    /// The type that is called so.
    pub fn kind_of(&self, name: &[u8]) -> Option<u32>
        ensures { IsNamedKind self.now.resources name.now result }
    {
        let kind = index_of_text(self.kinds.items(), name)?;
        Some(kind as u32)
    }

    /// What the type is called, and `None` exactly past the last type.
    pub fn kind_name(&self, kind: u32) -> Option<&Text>
        ensures { option_copied result ≡ slice_get self.now.resources.kinds kind }
    {
        self.kinds.get(kind as usize)
    }

    /// Whether it is a pool type: some vertex of it has a size other than 1.
    pub fn is_pool(&self, kind: u32) -> bool
        ensures { result ≡ is_pool_kind self.now.resources.vertices kind }
    {
        self.pools.get(kind as usize).copied().unwrap_or(false)
    }

    /// Whether some vertex of the lower type is below some vertex of the upper one.
    pub fn nests(&self, upper: u32, lower: u32) -> bool
        ensures { result ≡ contains_kind self.now.resources.vertices upper lower }
    {
        let kinds = self.kinds.len();
        if upper as usize >= kinds || lower as usize >= kinds {
            return false;
        }
        self.nested[upper as usize * kinds + lower as usize]
    }

    /// Whether the lower vertex is below the upper one.
    pub fn below(&self, upper: u32, lower: u32) -> bool
        requires upper_in { upper < length self.now.resources.vertices }
        requires lower_in { lower < length self.now.resources.vertices }
        ensures { result ≡ is_below self.now.resources.vertices lower upper }
    {
        upper < lower && lower < self.past[upper as usize]
    }

    /// The number after the last vertex at or below this one.
    pub fn past(&self, vertex: u32) -> u32
        requires { vertex < length self.now.resources.vertices }
        ensures { IsPast self.now.resources.vertices vertex result }
    {
        self.past[vertex as usize]
    }

    /// The least vertex of the type from `from` on and before `to`.
    #[inline(always)]
    pub fn next_of_kind(&self, kind: u32, from: u32, to: u32) -> Option<u32>
        ensures { MatchOption result (HasNoneOfKind self.now.resources.vertices kind from to)
            (λ v. IsNextOfKind self.now.resources.vertices kind from to v) }
    {
        if from >= to {
            return None;
        }
        if self.has_kind(kind, from) {
            return Some(from);
        }
        self.next_behind(kind, from + 1, to)
    }

    /// The same where the vertex before `from` isn't of the type: `from` is its first child, if it has one, and most
    /// often of the type.
    fn next_behind(&self, kind: u32, from: u32, to: u32) -> Option<u32>
        ensures { MatchOption result (HasNoneOfKind self.now.resources.vertices kind from to)
            (λ v. IsNextOfKind self.now.resources.vertices kind from to v) }
    {
        if from < to && self.has_kind(kind, from) {
            return Some(from);
        }
        self.next_listed(kind, from, to)
    }

    /// Whether the vertex is of the type. No vertex past the last one is.
    fn has_kind(&self, kind: u32, vertex: u32) -> bool
        ensures { IsTrue result ↔ HasKind self.now.resources.vertices kind vertex }
    {
        match self.vertices.get(vertex as usize) {
            Some(found) => found.kind == kind,
            None => false,
        }
    }

    /// The least vertex in the type's list from `from` on and before `to`.
    fn next_listed(&self, kind: u32, from: u32, to: u32) -> Option<u32>
        ensures { MatchOption result (HasNoneOfKind self.now.resources.vertices kind from to)
            (λ v. IsNextOfKind self.now.resources.vertices kind from to v) }
    {
        if kind as usize >= self.lists.len() {
            return None;
        }
        let list = &self.lists[kind as usize];
        next_in(list.as_slice(), from, to)
    }

    /// How many vertices of the type stand from `from` on and before `to`, at most so many. Logarithmic in the type's
    /// list: it looks at no vertex, but for a few that follow one another from `from` on.
    pub fn count_of_kind(&self, kind: u32, from: u32, to: u32, most: u32) -> u32
        ensures { result ≡ min most (kind_count self.now.resources.vertices kind from to) }
    {
        if most <= FEW && self.run_of_kind(kind, from, to, most) == most {
            return most;
        }
        if kind as usize >= self.lists.len() {
            return 0;
        }
        let list = &self.lists[kind as usize];
        count_in(list.as_slice(), from, to, most)
    }

    /// How many vertices of the type follow one another from `from` on, before `to` and at most so many.
    fn run_of_kind(&self, kind: u32, from: u32, to: u32, most: u32) -> u32
        ensures { IsRunOfKind self.now.resources.vertices kind from to result }
    {
        let vertices = self.vertices.items();
        let end = from.saturating_add(most).min(to).min(self.len());
        let mut at = from;
        while at < end && vertices[at as usize].kind == kind {
            at += 1;
        }
        at - from
    }

    /// The node that the vertex is or lies below.
    pub fn node_of(&self, vertex: u32) -> Option<u32>
        requires { vertex < length self.now.resources.vertices }
        ensures { IsNodeOf self.now.resources.vertices vertex result }
    {
        self.nodes[vertex as usize]
    }

    /// The node of this rank.
    pub fn node_of_rank(&self, rank: u32) -> Option<u32>
        ensures { IsRanked self.now.resources rank result }
    {
        self.ranked.get(&rank).copied()
    }

    /// The rank of the vertex, where it is a node; none past the last vertex.
    pub fn rank_at(&self, vertex: u32) -> Option<u32>
        ensures { result ≡ rank_at self.now.resources.vertices vertex }
    {
        self.vertices.get(vertex as usize)?.rank
    }

    /// What the vertex is called; past the last vertex nothing.
    pub fn name_at(&self, vertex: u32) -> &[u8]
        ensures { result.now ≡ name_at self.now vertex }
    {
        match self.names.get(vertex as usize) {
            Some(name) => name.bytes(),
            None => &[],
        }
    }

    /// What the vertex is called.
    pub fn name_of(&self, vertex: u32) -> &Text
        requires { vertex < length self.now.resources.vertices }
        ensures { slice_get self.now.names vertex ≡ Some result.now }
    {
        &self.names.items()[vertex as usize]
    }

    /// The vertex's basename.
    pub fn base_of(&self, vertex: u32) -> &Text
        requires { vertex < length self.now.resources.vertices }
        ensures { slice_get self.now.bases vertex ≡ Some result.now }
    {
        &self.bases.items()[vertex as usize]
    }

    /// The unit of the vertex's size.
    pub fn unit_of(&self, vertex: u32) -> &Text
        requires { vertex < length self.now.resources.vertices }
        ensures { slice_get self.now.units vertex ≡ Some result.now }
    {
        &self.units.items()[vertex as usize]
    }

    /// The vertex's properties.
    pub fn properties_of(&self, vertex: u32) -> &List<Text>
        requires { vertex < length self.now.resources.vertices }
        ensures { slice_get self.now.properties vertex ≡ Some result.now }
    {
        &self.properties.items()[vertex as usize]
    }

    /// The vertex's path in the containment hierarchy: `/` and the name, from the root down.
    pub fn path_of(&self, alloc: Global, vertex: u32) -> Result<Text, AllocError>
        requires { vertex < length self.now.resources.vertices }
        ensures { IfOk result (λ path. path ≡ path_text self.now vertex) }
    {
        let chain = chain_up(alloc, self.vertices.items(), vertex)?;
        path_along(alloc, self.names.items(), chain.as_slice())
    }

    /// The vertex with this path, and `None` exactly where no vertex has it; of several any one, which there are only
    /// where names have slashes. It takes no memory. It looks at the vertices whose paths' hashes fall into one bucket
    /// of as many as there are vertices, each in the time of reading the path at most.
    pub fn vertex_at(&self, path: &[u8]) -> Option<u32>
        ensures { MatchOption result ((v : ℕ) → v < length (vertices_of self.now) → path.now ≢ path_text self.now v)
            (λ v. (v < length (vertices_of self.now)) × (path.now ≡ path_text self.now v)) }
    {
        place_of(
            self.vertices.items(),
            self.names.items(),
            self.places.last.as_slice(),
            self.places.earlier.as_slice(),
            path,
        )
    }

    /// A law: where no name has a slash, the paths of different vertices differ. It does nothing.
    pub fn paths_differ(&self)
        ensures { PathsDiffer self.now }
    {
        let _ = &self.vertices;
    }
}

/// `/` and the name of each vertex of the chain, the last one first.
fn path_along(alloc: Global, names: &[Text], chain: &[u32]) -> Result<Text, AllocError>
    requires { AllBelow (length names.now) chain.now }
    ensures { IfOk result (λ path. path ≡ flat_map (name_step names.now) (reverse chain.now)) }
{
    let mut path = Vec::new(alloc);
    let mut left = chain.len();
    while left > 0 {
        left -= 1;
        path.push(b'/')?;
        path.extend_from_slice(names[chain[left] as usize].bytes())?;
    }
    Ok(Text::of_vec(path))
}

/// The first index of the text.
pub fn index_of_text(texts: &[Text], wanted: &[u8]) -> Option<usize>
    ensures found { IsFirstIndex texts.now wanted.now result }
{
    for (index, text) in texts.iter().enumerate() {
        if text.bytes() == wanted {
            return Some(index);
        }
    }
    None
}

/// The least number of a rising list from `from` on and before `to`.
fn next_in(list: &[u32], from: u32, to: u32) -> Option<u32>
    requires { IsStrictlyIncreasing list.now }
    ensures { MatchOption result (HasNoneIn list.now from to) (λ v. IsNextIn list.now from to v) }
{
    let index = index_of(list, from);
    if index >= list.len() {
        return None;
    }
    let v = list[index];
    if v >= to {
        return None;
    }
    Some(v)
}

/// How many numbers of a rising list stand from `from` on and before `to`, at most so many.
fn count_in(list: &[u32], from: u32, to: u32, most: u32) -> u32
    requires { IsStrictlyIncreasing list.now }
    ensures { IsCountIn list.now from to most result }
{
    if most == 0 {
        return 0;
    }
    let first = index_of(list, from);
    let last = first + (most as usize - 1);
    if last < list.len() && list[last] < to {
        return most;
    }
    let after = index_of(list, to);
    after.saturating_sub(first).min(most as usize) as u32
}
