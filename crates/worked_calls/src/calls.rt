//! Which call a file of rows names.
use crate::{graphs, hosts, ids, inputs, json_texts, sets, specs_v1, tables, vertices};
use flux_io::Files;
use std::alloc::{AllocError, Global};
use std::io;

/// What is told of a text by a call that needs no graph.
fn told_alone(alloc: Global, call: &str, text: &[u8]) -> Result<Option<Vec<u8>>, AllocError> {
    let told = match call {
        "hostlists" => hosts::hostlist(alloc, text)?,
        "hosts_in" => hosts::is_in(alloc, text)?,
        "ids_in" => ids::is_in(alloc, text)?,
        "idsets" => ids::idset(alloc, text)?,
        "flat_graphs" => graphs::flat(alloc, text)?,
        "json_texts" => json_texts::is_read(alloc, text)?,
        "numbered_texts" => tables::numbered(alloc, text)?,
        "numbers" => json_texts::number(alloc, text)?,
        "plain_forms" => json_texts::plain_form(alloc, text)?,
        "sets" => sets::set(alloc, text)?,
        "texts" => json_texts::text(alloc, text)?,
        "vertex_lists" => vertices::fault(alloc, text)?,
        "written_hostlists" => hosts::written(alloc, text)?,
        _ => return Ok(None),
    };
    Ok(Some(told))
}

/// What is told of a text by a call.
pub(crate) fn told<F: Files>(
    alloc: Global,
    files: &mut F,
    call: &str,
    text: &[u8],
) -> io::Result<Vec<u8>> {
    if let Some(told) = told_alone(alloc, call, text)? {
        return Ok(told);
    }
    match call {
        "graph_queries" => graphs::answer(alloc, files, text),
        "jobspecs" => specs_v1::told(alloc, files, text),
        "limits" => inputs::passed(alloc, files, text),
        "written_sets" => sets::written(alloc, files, text),
        _ => Ok(Vec::from_slice(alloc, b"no such call")?),
    }
}
