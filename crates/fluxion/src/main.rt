//! The program: the top call with the words, files and streams of the system.
#![tactic(auto)]

mod words;

use flux_defs::OpenGate;
use flux_io::{StdFiles, StdSink, StdSource, Waiting, write_all};
use fluxion_shell::{Status, code, fault_line, run};
use std::process::ExitCode;
use std::sync::Wait;
use std::thread::Threads;
use words::words_of;

/// Runs the program over the files and streams of the system, with threads from a handle, and says how it ended.
fn run_with<R: Threads + Wait + Sync>(host: &HostRuntime, rt: &R) -> Status {
    let alloc = host.alloc();
    let Ok(words) = words_of(alloc, host) else {
        return Status::Memory;
    };
    let mut files = StdFiles::new(host);
    let mut input = StdSource::new(Waiting::new(host.stdin(), host));
    let mut out = StdSink::new(Waiting::new(host.stdout(), host));
    run(
        rt, alloc, &words, &mut files, &mut input, &mut out, &OpenGate,
    )
}

fn main(rt: HostRuntime) -> ExitCode {
    let status = run_with(&rt, &rt);
    if let Ok(line) = fault_line(rt.alloc(), &status) {
        let mut errors = StdSink::new(Waiting::new(rt.stderr(), &rt));
        let _ = write_all(&mut errors, &line);
    }
    ExitCode::from(code(&status))
}
