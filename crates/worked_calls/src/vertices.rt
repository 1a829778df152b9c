//! Lists of vertices that come from no file: their faults.
ghost use Rattle.std.specs.Prelude.{IsTrue};
ghost use Rattle.graph_build.specs.Raw.{KindsApart};

use crate::words::{with_number, word};
use flux_defs::{List, Text};
use graph_build::{GraphFault, RawVertex, build};
use resource_graph::graph::index_of_text;
use std::alloc::{AllocError, Global};
use text_forms::number_in;

const TYPES: [&[u8]; 4] = [b"memory", b"core", b"node", b"cluster"];

/// Whether no two types are called the same.
fn are_apart(kinds: &[Text]) -> bool
    ensures { IsTrue result → KindsApart kinds.now }
{
    for k in 0..kinds.len() {
        let Some(first) = index_of_text(kinds, kinds[k].bytes()) else {
            return false;
        };
        if first != k {
            return false;
        }
    }
    true
}

fn types(alloc: Global) -> Result<List<Text>, AllocError> {
    let mut kinds = Vec::new(alloc);
    for name in TYPES {
        kinds.push(Text::of(alloc, name)?)?;
    }
    Ok(List::of_vec(kinds))
}

/// A vertex from its type, its name, the index of its parent and its size, with `-` for none. A type that isn't among
/// `TYPES` is a kind past the last.
fn vertex_of(alloc: Global, kinds: &[Text], line: &[u8]) -> Result<RawVertex, AllocError> {
    let mut words = line.split(|byte| *byte == b' ');
    let kind = index_of_text(kinds, words.next().unwrap_or(b"")).unwrap_or(kinds.len());
    let name = words.next().unwrap_or(b"");
    let parent = number_in(words.next().unwrap_or(b"-"));
    let size = number_in(words.next().unwrap_or(b"1"));
    Ok(RawVertex {
        kind: u32::try_from(kind).unwrap_or(u32::MAX),
        base: Text::of(alloc, b"base")?,
        name: Text::of(alloc, name)?,
        id: None,
        rank: None,
        size: size.unwrap_or(1),
        unit: Text::of(alloc, b"GB")?,
        properties: List::new(alloc),
        parent: parent.and_then(|parent| u32::try_from(parent).ok()),
    })
}

fn vertices_of(alloc: Global, kinds: &[Text], lines: &[u8]) -> Result<List<RawVertex>, AllocError> {
    let mut raw = Vec::new(alloc);
    for line in lines.split(|byte| *byte == b'|') {
        raw.push(vertex_of(alloc, kinds, line)?)?;
    }
    Ok(List::of_vec(raw))
}

/// The first fault of a list.
pub(crate) fn fault(alloc: Global, text: &[u8]) -> Result<Vec<u8>, AllocError> {
    let kinds = types(alloc)?;
    let raw = vertices_of(alloc, kinds.items(), text)?;
    if !are_apart(kinds.items()) {
        return word(alloc, b"equal types");
    }
    match build(alloc, kinds, raw) {
        Err(GraphFault::UnknownParent { vertex }) => {
            with_number(alloc, b"parent", u64::from(vertex))
        }
        Err(GraphFault::UnknownKind { vertex }) => with_number(alloc, b"kind", u64::from(vertex)),
        Err(GraphFault::Large { vertex }) => with_number(alloc, b"large", u64::from(vertex)),
        Err(_) => word(alloc, b"another fault"),
        Ok(_) => word(alloc, b"a graph"),
    }
}
