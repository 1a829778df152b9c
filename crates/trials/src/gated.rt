//! Runs of the program with two clients that are kept at places, so that what each tells and what is written is known.
//! The lists of filters change nothing.
use crate::gates::{Step, Telling, Turnstile, go, keep};
use flux_defs::{List, Text};
use flux_io::{SureFiles, SureSink, SureSource};
use fluxion_shell::{code, run};
use small_graphs::TWO_NODES;
use std::alloc::{AllocError, Global};
use std::process::Abort;
use std::sync::Wait;
use std::test::Fail;
use std::thread::Threads;

/// What may stand behind the option for filters; it may be left out.
const FILTERS: [Option<&str>; 3] = [None, Some("ALL:core,cluster:node"), Some("x:y")];

/// Each of two clients asks for one core for a minute.
const TWO_JOBS: &str =
    "a allocate 1 {\"version\":1,\"resources\":[{\"type\":\"slot\",\"count\":1,\"label\":\"task\",\"with\":[{\"type\":\"core\",\"count\":1}]}],\"tasks\":[{\"command\":[\"app\"],\"slot\":\"task\",\"count\":{\"per_slot\":1}}],\"attributes\":{\"system\":{\"duration\":60}}}\nb allocate 2 {\"version\":1,\"resources\":[{\"type\":\"slot\",\"count\":1,\"label\":\"task\",\"with\":[{\"type\":\"core\",\"count\":1}]}],\"tasks\":[{\"command\":[\"app\"],\"slot\":\"task\",\"count\":{\"per_slot\":1}}],\"attributes\":{\"system\":{\"duration\":60}}}\n";

/// The second client was first, though the first client had searched before.
const SECOND_FIRST: &str =
    "0 2 b allocated 2 0 {\"execution\":{\"R_lite\":[{\"children\":{\"core\":\"0\"},\"rank\":\"0\"}],\"expiration\":60,\"nodelist\":[\"node0\"],\"starttime\":0},\"version\":1}\n1 1 a allocated 1 0 {\"execution\":{\"R_lite\":[{\"children\":{\"core\":\"1\"},\"rank\":\"0\"}],\"expiration\":60,\"nodelist\":[\"node0\"],\"starttime\":0},\"version\":1}\n";

/// The first client asks for two jobs of one core, and the second whether one would fit, and for one.
const FOUR_LINES: &str =
    "a allocate 1 {\"version\":1,\"resources\":[{\"type\":\"slot\",\"count\":1,\"label\":\"task\",\"with\":[{\"type\":\"core\",\"count\":1}]}],\"tasks\":[{\"command\":[\"app\"],\"slot\":\"task\",\"count\":{\"per_slot\":1}}],\"attributes\":{\"system\":{\"duration\":60}}}\na allocate 2 {\"version\":1,\"resources\":[{\"type\":\"slot\",\"count\":1,\"label\":\"task\",\"with\":[{\"type\":\"core\",\"count\":1}]}],\"tasks\":[{\"command\":[\"app\"],\"slot\":\"task\",\"count\":{\"per_slot\":1}}],\"attributes\":{\"system\":{\"duration\":60}}}\nb satisfy {\"version\":1,\"resources\":[{\"type\":\"slot\",\"count\":1,\"label\":\"task\",\"with\":[{\"type\":\"core\",\"count\":1}]}],\"tasks\":[{\"command\":[\"app\"],\"slot\":\"task\",\"count\":{\"per_slot\":1}}],\"attributes\":{\"system\":{\"duration\":60}}}\nb allocate 3 {\"version\":1,\"resources\":[{\"type\":\"slot\",\"count\":1,\"label\":\"task\",\"with\":[{\"type\":\"core\",\"count\":1}]}],\"tasks\":[{\"command\":[\"app\"],\"slot\":\"task\",\"count\":{\"per_slot\":1}}],\"attributes\":{\"system\":{\"duration\":60}}}\n";

/// The order of lines is 1, 3, 4, 2.
const OVERTAKEN_LAST: &str =
    "0 1 a allocated 1 0 {\"execution\":{\"R_lite\":[{\"children\":{\"core\":\"0\"},\"rank\":\"0\"}],\"expiration\":60,\"nodelist\":[\"node0\"],\"starttime\":0},\"version\":1}\n1 3 b satisfiable\n2 4 b allocated 3 0 {\"execution\":{\"R_lite\":[{\"children\":{\"core\":\"1\"},\"rank\":\"0\"}],\"expiration\":60,\"nodelist\":[\"node0\"],\"starttime\":0},\"version\":1}\n3 2 a allocated 2 0 {\"execution\":{\"R_lite\":[{\"children\":{\"core\":\"2\"},\"rank\":\"0\"}],\"expiration\":60,\"nodelist\":[\"node0\"],\"starttime\":0},\"version\":1}\n";

/// The words of a run over the file `g`.
fn words(alloc: Global, filters: Option<&str>) -> Result<List<Text>, AllocError> {
    let mut words = Vec::new(alloc);
    words.push(Text::of(alloc, b"serve")?)?;
    words.push(Text::of(alloc, b"g")?)?;
    if let Some(filters) = filters {
        words.push(Text::of(alloc, b"--filters")?)?;
        words.push(Text::of(alloc, filters.as_bytes())?)?;
    }
    Ok(List::of_vec(words))
}

/// The file `g`, of two nodes.
fn store(alloc: Global) -> Result<SureFiles, AllocError> {
    let mut files = Vec::new(alloc);
    files.push((
        Text::of(alloc, b"g")?,
        Text::of(alloc, TWO_NODES.as_bytes())?,
    ))?;
    Ok(SureFiles::new(List::of_vec(files)))
}

/// A run in which two clients pass the gate writes these bytes, and each of them told what it was to tell.
fn writes<R: Abort + Threads + Wait + Sync>(
    rt: &R,
    alloc: Global,
    filters: Option<&str>,
    input: &str,
    gate: &Turnstile,
    wanted: &str,
) -> Result<(), Fail> {
    let words = words(alloc, filters)?;
    let mut files = store(alloc)?;
    let mut source = SureSource::new(Text::of(alloc, input.as_bytes())?, 1_000);
    let mut out = SureSink::new(alloc, 1_000);
    out.reserve(10_000)?;
    let status = run(rt, alloc, &words, &mut files, &mut source, &mut out, gate);
    assert_eq!(rt; code(&status), 0);
    assert!(rt; gate.is_content());
    assert_eq!(rt; out.bytes(), wanted.as_bytes());
    Ok(())
}

// Client 1 is kept at its search until client 0 was at its first, and client 0 there until client 1 has its entry.
fn one_line_each(alloc: Global) -> Result<Turnstile, AllocError> {
    let first: Vec<Step> = vec![in alloc;
        keep(Telling::Found { length: 0, core: 2 }, 2),
        go(Telling::Overtaken { at: 0 }),
        go(Telling::Found { length: 1, core: 3 }),
        go(Telling::Placed),
    ]?;
    let second: Vec<Step> = vec![in alloc;
        keep(Telling::Found { length: 0, core: 2 }, 1),
        go(Telling::Placed),
    ]?;
    Ok(Turnstile::new(first, second))
}

// Client 1 is kept at its first search until client 0 was at its second, and client 0 there until client 1 has both
// entries.
fn two_lines_each(alloc: Global) -> Result<Turnstile, AllocError> {
    let first: Vec<Step> = vec![in alloc;
        go(Telling::Found { length: 0, core: 2 }),
        go(Telling::Placed),
        keep(Telling::Found { length: 1, core: 3 }, 4),
        go(Telling::Overtaken { at: 2 }),
        go(Telling::Found { length: 3, core: 4 }),
        go(Telling::Placed),
    ]?;
    let second: Vec<Step> = vec![in alloc;
        keep(Telling::Asked { most: 1 }, 3),
        go(Telling::Placed),
        go(Telling::Found { length: 2, core: 3 }),
        go(Telling::Placed),
    ]?;
    Ok(Turnstile::new(first, second))
}

#[test]
fn an_older_candidate_is_overtaken(rt: HostRuntime) -> Result<(), Fail> {
    let alloc = rt.alloc();
    for filters in FILTERS {
        let gate = one_line_each(alloc)?;
        writes(&rt, alloc, filters, TWO_JOBS, &gate, SECOND_FIRST)?;
    }
    Ok(())
}

#[test]
fn what_is_only_asked_overtakes_nothing(rt: HostRuntime) -> Result<(), Fail> {
    let alloc = rt.alloc();
    for filters in FILTERS {
        let gate = two_lines_each(alloc)?;
        writes(&rt, alloc, filters, FOUR_LINES, &gate, OVERTAKEN_LAST)?;
    }
    Ok(())
}
