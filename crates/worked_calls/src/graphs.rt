//! Graphs: what they answer, and files that are too large.
use crate::rows::file;
use crate::words::{
    first_index, first_number, first_word, push_some, some, whether, with_number, with_text, word,
};
use flux_io::Files;
use graph_build::GraphFault;
use graph_json::{ReadFault, read_graph};
use resource_graph::Graph;
use std::alloc::{AllocError, Global};
use std::io;
use std::io::{Error, ErrorKind};
use text_forms::{push_bytes, push_decimal};

/// The graph of a file of the folder, without the file's ending.
pub(crate) fn graph_in<F: Files>(alloc: Global, files: &mut F, name: &[u8]) -> io::Result<Graph> {
    let Ok(name) = std::str::from_utf8(name) else {
        return Err(Error::from(ErrorKind::NotFound));
    };
    let path = format!(in alloc; "{name}.json")?;
    match read_graph(alloc, file(alloc, files, path.as_str())?.as_slice()) {
        Ok(graph) => Ok(graph),
        Err(_) => Err(Error::from(ErrorKind::InvalidData)),
    }
}

/// A vertex's name, the number past it, and the node that it is or lies below.
fn vertex(alloc: Global, graph: &Graph, v: u32) -> Result<Vec<u8>, AllocError> {
    if v >= graph.len() {
        return word(alloc, b"none");
    }
    let mut told = Vec::from_slice(alloc, graph.name_of(v).bytes())?;
    push_bytes(&mut told, b", past ")?;
    push_decimal(&mut told, u64::from(graph.past(v)))?;
    push_bytes(&mut told, b", node ")?;
    push_some(&mut told, graph.node_of(v))?;
    Ok(told)
}

/// A vertex's path, its basename, its unit, and how many properties it has.
fn texts(alloc: Global, graph: &Graph, v: u32) -> Result<Vec<u8>, AllocError> {
    if v >= graph.len() {
        return word(alloc, b"none");
    }
    let mut told = graph.path_of(alloc, v)?.into_vec();
    push_bytes(&mut told, b", ")?;
    push_bytes(&mut told, graph.base_of(v).bytes())?;
    push_bytes(&mut told, b", ")?;
    push_bytes(&mut told, graph.unit_of(v).bytes())?;
    push_bytes(&mut told, b", ")?;
    push_decimal(&mut told, graph.properties_of(v).len() as u64)?;
    Ok(told)
}

/// What a type is called, and whether it is a pool type.
fn kind(alloc: Global, graph: &Graph, kind: u32) -> Result<Vec<u8>, AllocError> {
    let mut told = match graph.kind_name(kind) {
        Some(name) => Vec::from_slice(alloc, name.bytes())?,
        None => Vec::from_slice(alloc, b"none")?,
    };
    let pool = if graph.is_pool(kind) {
        b", pool".as_slice()
    } else {
        b", no pool"
    };
    push_bytes(&mut told, pool)?;
    Ok(told)
}

/// Whether the second vertex is below the first, and whether the first's type contains the second's.
fn pair(alloc: Global, graph: &Graph, upper: u32, lower: u32) -> Result<Vec<u8>, AllocError> {
    if upper >= graph.len() || lower >= graph.len() {
        return word(alloc, b"none");
    }
    let is_below = graph.below(upper, lower);
    let below = if is_below {
        b"below, ".as_slice()
    } else {
        b"not below, "
    };
    let vertices = graph.vertices().items();
    let nests = graph.nests(vertices[upper as usize].kind, vertices[lower as usize].kind);
    let mut told = Vec::from_slice(alloc, below)?;
    push_bytes(
        &mut told,
        if nests {
            b"nests".as_slice()
        } else {
            b"nests not"
        },
    )?;
    Ok(told)
}

/// The answer to a question with a number.
fn of_one(alloc: Global, graph: &Graph, question: &[u8], n: u32) -> Result<Vec<u8>, AllocError> {
    if question == b"vertex".as_slice() {
        return vertex(alloc, graph, n);
    }
    if question == b"texts".as_slice() {
        return texts(alloc, graph, n);
    }
    if question == b"kind".as_slice() {
        return kind(alloc, graph, n);
    }
    if question == b"rank".as_slice() {
        return some(alloc, graph.node_of_rank(n));
    }
    word(alloc, b"no question")
}

/// The answer to a question with two numbers or three.
fn of_more(
    alloc: Global,
    graph: &Graph,
    question: &[u8],
    first: u32,
    rest: &[u8],
) -> Result<Vec<u8>, AllocError> {
    let Some((second, rest)) = first_index(rest) else {
        return of_one(alloc, graph, question, first);
    };
    if question == b"pair".as_slice() {
        return pair(alloc, graph, first, second);
    }
    if question == b"nests".as_slice() {
        return whether(alloc, graph.nests(first, second));
    }
    match first_index(rest) {
        Some((third, _)) => some(alloc, graph.next_of_kind(first, second, third)),
        None => word(alloc, b"no question"),
    }
}

/// The answer of a graph: its name, a question and its numbers.
pub(crate) fn answer<F: Files>(alloc: Global, files: &mut F, text: &[u8]) -> io::Result<Vec<u8>> {
    let (name, rest) = first_word(text);
    let graph = graph_in(alloc, files, name)?;
    let (question, rest) = first_word(rest);
    if question == b"kind_of".as_slice() {
        return Ok(some(alloc, graph.kind_of(rest))?);
    }
    match first_index(rest) {
        Some((first, rest)) => Ok(of_more(alloc, &graph, question, first, rest)?),
        None => Ok(word(alloc, b"no question")?),
    }
}

/// A file of vertices of one type below no root, so many in all.
fn flat_file(alloc: Global, length: u64) -> Result<Vec<u8>, AllocError> {
    let mut text = Vec::from_slice(
        alloc,
        br#"{"graph":{"nodes":[{"id":"r","metadata":{"type":"root"}}"#,
    )?;
    for at in 1..length {
        push_bytes(&mut text, br#",{"metadata":{"type":"t"},"id":"#)?;
        push_decimal(&mut text, at)?;
        push_bytes(&mut text, b"}")?;
    }
    push_bytes(&mut text, br#"],"edges":[]}}"#)?;
    Ok(text)
}

/// The fault of a file without edges of so many vertices.
pub(crate) fn flat(alloc: Global, text: &[u8]) -> Result<Vec<u8>, AllocError> {
    let Some((length, _)) = first_number(text) else {
        return word(alloc, b"no number");
    };
    match read_graph(alloc, flat_file(alloc, length)?.as_slice()) {
        Err(ReadFault::Graph(GraphFault::Vertices { found })) => {
            with_number(alloc, b"vertices", found)
        }
        Err(ReadFault::Graph(GraphFault::ManyRoots { vertex })) => {
            with_number(alloc, b"roots", u64::from(vertex))
        }
        Err(ReadFault::Memory) => Err(AllocError),
        _ => with_text(alloc, b"another", b"fault"),
    }
}
