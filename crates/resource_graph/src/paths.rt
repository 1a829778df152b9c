//! Vertices by their paths: a table with a bucket for each vertex, in which those whose paths have hashes that agree
//! there are chained.
ghost use Rattle.std.specs.Prelude.{◌≡◌, ◌≢◌, ◌<◌, ◌≤◌, ◌↔◌, ◌∷◌, ◌++◌, ℕ, List, length, IsTrue, IfOk, MatchOption};
ghost use Rattle.std.specs.List.{fold};
ghost use Rattle.flux_defs.specs.declared.limits.TheConstants.{MOST_VERTICES};
ghost use Rattle.resource_graph.specs.Preorder.{InPreorder};
ghost use Rattle.resource_graph.specs.Paths.{HasHashes, HasPlaces, HasPlacesTo, IsFoundBy, bucket_in, mixed, path_hash};
ghost use Rattle.resource_graph.specs.Paths.{AreEmptyBuckets, path_in};

use flux_defs::{Text, Vertex};
use std::alloc::{AllocError, Global};

/// By bucket the last vertex that falls into it, and by vertex the one before it in its bucket.
#[derive(Debug, Drop)]
pub(crate) struct Places {
    pub last: Vec<Option<u32>>,
    pub earlier: Vec<Option<u32>>,
}

/// The hash of a text with one byte more.
fn mix(hash: u32, byte: u8) -> u32
    ensures { result ≡ mixed hash byte }
{
    ((u64::from(hash) * 403 + u64::from(byte)) % (1 << 32)) as u32
}

/// The hash of a text that goes on with this one.
fn hash_on(hash: u32, text: &[u8]) -> u32
    ensures { result ≡ fold mixed hash text.now }
{
    let mut mixing = hash;
    for byte in text {
        mixing = mix(mixing, *byte);
    }
    mixing
}

/// The hash of the vertex's path, from those of the vertices before it.
fn hash_at(vertices: &[Vertex], names: &[Text], hashes: &[u32], v: usize) -> u32
    requires order { InPreorder vertices.now }
    requires named { length names.now ≡ length vertices.now }
    requires within { v < length vertices.now }
    requires before { HasHashes vertices.now names.now v hashes.now }
    ensures { result ≡ path_hash vertices.now names.now v }
{
    let name = names[v].bytes();
    match vertices[v].parent {
        Some(parent) => hash_on(mix(hashes[parent as usize], b'/'), name),
        None => hash_on(mix(0, b'/'), name),
    }
}

/// By vertex, the hash of its path.
fn hash_table(alloc: Global, vertices: &[Vertex], names: &[Text]) -> Result<Vec<u32>, AllocError>
    requires order { InPreorder vertices.now }
    requires named { length names.now ≡ length vertices.now }
    ensures { IfOk result (λ hashes. HasHashes vertices.now names.now (length vertices.now) hashes.items) }
{
    let mut hashes = Vec::with_capacity(alloc, vertices.len())?;
    for v in 0..vertices.len() {
        let hash = hash_at(vertices, names, hashes.as_slice(), v);
        hashes.push(hash)?;
    }
    Ok(hashes)
}

/// So many empty buckets.
fn empty_buckets(alloc: Global, count: usize) -> Result<Vec<Option<u32>>, AllocError>
    ensures { IfOk result (λ buckets. AreEmptyBuckets buckets.items count) }
{
    let mut buckets = Vec::with_capacity(alloc, count)?;
    while buckets.len() < count {
        buckets.push(None)?;
    }
    Ok(buckets)
}

/// The numbers of a list of hashes, chained by bucket: there are as many buckets as hashes.
fn places_of(alloc: Global, hashes: &[u32]) -> Result<Places, AllocError>
    requires few { length hashes.now ≤ MOST_VERTICES }
    ensures { IfOk result (λ places. HasPlacesTo (bucket_in hashes.now) (length hashes.now) (length hashes.now)
        places.last.items places.earlier.items) }
{
    let mut last = empty_buckets(alloc, hashes.len())?;
    let mut earlier = Vec::with_capacity(alloc, hashes.len())?;
    for v in 0..hashes.len() {
        let bucket = hashes[v] as usize % hashes.len();
        earlier.push(last[bucket])?;
        last[bucket] = Some(v as u32);
    }
    Ok(Places { last, earlier })
}

/// What the vertices are found by. Linear in the lengths of their names.
pub(crate) fn place_table(
    alloc: Global,
    vertices: &[Vertex],
    names: &[Text],
) -> Result<Places, AllocError>
    requires order { InPreorder vertices.now }
    requires few { length vertices.now ≤ MOST_VERTICES }
    requires named { length names.now ≡ length vertices.now }
    ensures { IfOk result (λ places. HasPlaces vertices.now names.now places.last.items places.earlier.items) }
{
    let hashes = hash_table(alloc, vertices, names)?;
    places_of(alloc, hashes.as_slice())
}

/// What stands before a slash and the name, where the text ends so.
fn before_step<'a>(text: &'a [u8], name: &[u8]) -> Option<&'a [u8]>
    ensures { MatchOption result ((rest : List ℕ) → text.now ≢ rest ++ 47 ∷ name.now)
        (λ rest. text.now ≡ rest.now ++ 47 ∷ name.now) }
{
    match text.strip_suffix(name) {
        Some(before) => before.strip_suffix(b"/"),
        None => None,
    }
}

/// Whether the text is the vertex's path. It goes up from the vertex, and reads the text once at most.
fn is_path(vertices: &[Vertex], names: &[Text], vertex: u32, text: &[u8]) -> bool
    requires order { InPreorder vertices.now }
    requires named { length names.now ≡ length vertices.now }
    requires within { vertex < length vertices.now }
    ensures { IsTrue result ↔ (text.now ≡ path_in vertices.now names.now vertex) }
{
    let Some(rest) = before_step(text, names[vertex as usize].bytes()) else {
        return false;
    };
    match vertices[vertex as usize].parent {
        Some(parent) => is_path(vertices, names, parent, rest),
        None => rest.is_empty(),
    }
}

/// The vertex with this path, among those of its bucket.
pub(crate) fn place_of(
    vertices: &[Vertex],
    names: &[Text],
    last: &[Option<u32>],
    earlier: &[Option<u32>],
    path: &[u8],
) -> Option<u32>
    requires order { InPreorder vertices.now }
    requires few { length vertices.now ≤ MOST_VERTICES }
    requires named { length names.now ≡ length vertices.now }
    requires places { HasPlaces vertices.now names.now last.now earlier.now }
    ensures { IsFoundBy vertices.now names.now path.now result }
{
    if last.is_empty() {
        return None;
    }
    let mut at = last[hash_on(0, path) as usize % last.len()];
    while let Some(vertex) = at {
        if is_path(vertices, names, vertex, path) {
            return Some(vertex);
        }
        at = earlier[vertex as usize];
    }
    None
}
