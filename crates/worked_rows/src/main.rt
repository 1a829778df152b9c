//! Plays the worked rows in the folder where it runs: each folder with a file `args` is one. It writes a line for each
//! row, in the order of their names. docs/WORKING.md says what stands in the files of a row.
#![tactic(auto)]

mod judging;
mod playing;
mod reading;

use flux_io::StdFiles;
use judging::judge;
use playing::play_row;
use reading::{read_row, rows_in};
use std::io;
use std::process::ExitCode;
use std::sync::Wait;
use std::thread::Threads;

/// Plays all rows, with threads from a handle, and answers whether each is as it should be.
fn play_all<R: Threads + Wait + Sync>(host: &HostRuntime, rt: &R) -> io::Result<bool> {
    let alloc = host.alloc();
    let mut files = StdFiles::new(host.clone()?);
    let mut well = true;
    for name in rows_in(host, ".")? {
        let row = read_row(alloc, &mut files, name.as_str())?;
        let played = play_row(rt, alloc, &mut files, &row)?;
        let told = judge(alloc, &row, &played)?;
        println!(host; "{name} {told}")?;
        well &= told.as_str() == "ok";
    }
    Ok(well)
}

fn main(rt: HostRuntime) -> ExitCode {
    match play_all(&rt, &rt) {
        Ok(true) => ExitCode::SUCCESS,
        Ok(false) => ExitCode::FAILURE,
        Err(e) => {
            let _ = eprintln!(rt; "worked_rows: {e}");
            ExitCode::FAILURE
        }
    }
}
