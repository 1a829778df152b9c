//! Plays rows of calls, each on one text: those that the program doesn't make, and those whose faults or results it
//! doesn't tell whole. A file `CALL.txt` of the folder where it runs has the rows of one call: a text in a line, and
//! behind two spaces in the next one what has to be told of it. It writes a line for each file, in the order of their
//! names, and one for each row that is told otherwise. docs/WORKING.md says how a row is written.
#![tactic(auto)]

mod calls;
mod graphs;
mod hosts;
mod ids;
mod inputs;
mod json_texts;
mod rows;
mod sets;
mod specs_v1;
mod tables;
mod vertices;
mod words;

use calls::told;
use flux_io::{Files, StdFiles};
use rows::{decoded, file, is_comment, wanted_in};
use std::alloc::Global;
use std::process::ExitCode;
use std::{fs, io};

/// The names of the files of rows, in their order.
fn calls_in(host: &HostRuntime, folder: &str) -> io::Result<Vec<String>> {
    let mut calls = Vec::new(host.alloc());
    for entry in fs::read_dir(host, folder)? {
        let entry = entry?;
        if let Some(call) = entry.file_name().strip_suffix(".txt") {
            calls.push(String::from_str(host.alloc(), call)?)?;
        }
    }
    calls.sort()?;
    Ok(calls)
}

/// Plays the rows of a call, and answers how many are told otherwise than they should be.
fn play<F: Files>(
    host: &HostRuntime,
    alloc: Global,
    files: &mut F,
    call: &str,
    lines: &[u8],
) -> io::Result<u64> {
    let mut others = 0u64;
    let mut number = 0u64;
    let mut text: &[u8] = b"";
    for line in lines.split(|byte| *byte == b'\n') {
        number = number.saturating_add(1);
        if is_comment(line) {
            continue;
        }
        let Some(wanted) = wanted_in(line) else {
            text = line;
            continue;
        };
        let found = told(alloc, files, call, decoded(alloc, text)?.as_slice())?;
        if found.as_slice() != decoded(alloc, wanted)?.as_slice() {
            others = others.saturating_add(1);
            println!(host;
                "{call}, line {number}: {}",
                String::from_utf8_lossy(alloc, found.as_slice())?
            )?;
        }
    }
    Ok(others)
}

/// Plays all rows, and answers whether each is told as it should be.
fn play_all(host: &HostRuntime) -> io::Result<bool> {
    let alloc = host.alloc();
    let mut files = StdFiles::new(host.clone()?);
    let mut well = true;
    for call in calls_in(host, ".")? {
        let path = format!(in alloc; "{call}.txt")?;
        let lines = file(alloc, &mut files, path.as_str())?;
        let others = play(host, alloc, &mut files, call.as_str(), lines.as_slice())?;
        println!(host; "{call} {}", if others == 0 { "ok" } else { "differs" })?;
        well &= others == 0;
    }
    Ok(well)
}

fn main(host: HostRuntime) -> ExitCode {
    match play_all(&host) {
        Ok(true) => ExitCode::SUCCESS,
        Ok(false) => ExitCode::FAILURE,
        Err(e) => {
            let _ = eprintln!(host; "worked_calls: {e}");
            ExitCode::FAILURE
        }
    }
}
