//! What no clause says: that calls succeed with ample memory, which numbers the failing calls have, and what the
//! adapters do at real files and pipes and at interrupted calls.
ghost use Rattle.std.specs.Prelude.{◌≤◌, IfOk};

use flux_defs::{List, Text};
use flux_io::{
    Failed, FileFail, FileOpener, Files, Got, MemFiles, MemSink, MemSource, ReadAllFail, Sink,
    Source, StdFiles, StdSink, StdSource, SureFiles, SureSink, SureSource, Waiting, read_all,
    write_all,
};
use std::alloc::{AllocError, Global};
use std::cell::Cell;
use std::io::{ErrorKind, Read, Write, pipe};
use std::process::Abort;
use std::test::Fail;
use std::time::{Clock, Duration};
use std::{env, fs, io, process};

/// The bytes 0, 1, 2 and so on, and after 250 again 0.
fn counting(alloc: Global, count: usize) -> Result<Vec<u8>, AllocError> {
    let mut bytes = Vec::with_capacity(alloc, count)?;
    for i in 0..count {
        bytes.push((i % 251) as u8)?;
    }
    Ok(bytes)
}

/// For 250 bytes: the most bytes of a call, and how many pulls that takes with the one that finds the end.
const PULLS: [(usize, u64); 3] = [(1, 251), (7, 37), (100, 4)];

/// For 250 bytes: the most bytes of a call, and how many pushes that takes.
const PUSHES: [(usize, u64); 3] = [(1, 250), (7, 36), (100, 3)];

fn reads_or_fails(
    rt: &impl Abort,
    alloc: Global,
    row: (usize, u64),
    failing: u64,
) -> Result<(), Fail> {
    let (piece, pulls) = row;
    assert!(rt; 0 < piece);
    let bytes = Text::of_vec(counting(alloc, 250)?);
    let fails = List::of_vec(vec![in alloc; failing]?);
    let mut source = MemSource::new(bytes.copy(alloc)?, piece, fails);
    match read_all(alloc, &mut source, 250) {
        Ok(text) => {
            assert!(rt; failing > pulls, "piece {piece}, call {failing} failed not");
            assert_eq!(rt; text.bytes(), bytes.bytes());
        }
        Err(fail) => {
            assert!(rt; failing <= pulls, "piece {piece}, call {failing} failed");
            assert_eq!(rt; fail, ReadAllFail::Failed);
        }
    }
    Ok(())
}

fn writes_or_fails(
    rt: &impl Abort,
    alloc: Global,
    row: (usize, u64),
    failing: u64,
) -> Result<(), Fail> {
    let (piece, pushes) = row;
    assert!(rt; 0 < piece);
    let text = Text::of_vec(counting(alloc, 250)?);
    let mut sink = MemSink::new(alloc, piece, List::of_vec(vec![in alloc; failing]?));
    sink.reserve(250)?;
    let written = write_all(&mut sink, &text);
    let mut taken = 250;
    if failing <= pushes {
        taken = (failing as usize).saturating_sub(1).saturating_mul(piece);
    }
    assert_eq!(rt;
        written.is_err(),
        failing <= pushes,
        "piece {piece}, call {failing}"
    );
    assert_eq!(rt; sink.bytes(), counting(alloc, taken)?.as_slice());
    Ok(())
}

#[test]
fn listed_calls_fail(rt: HostRuntime) -> Result<(), Fail> {
    for row in PULLS {
        for failing in [1, 2, 3, 4, 5, 36, 37, 38, 250, 251, 252] {
            reads_or_fails(&rt, rt.alloc(), row, failing)?;
        }
    }
    for row in PUSHES {
        for failing in [1, 2, 3, 4, 35, 36, 37, 249, 250, 251] {
            writes_or_fails(&rt, rt.alloc(), row, failing)?;
        }
    }
    Ok(())
}

/// What a write of 250 bytes answers.
fn written<S: Sink>(alloc: Global, sink: &mut S) -> Result<Result<(), Failed>, AllocError> {
    let text = Text::of_vec(counting(alloc, 250)?);
    Ok(write_all(sink, &text))
}

#[test]
fn pushes_past_the_room_fail(rt: HostRuntime) -> Result<(), Fail> {
    let alloc = rt.alloc();
    let mut sink = MemSink::new(alloc, 7, List::new(alloc));
    sink.reserve(50)?;
    let told = written(alloc, &mut sink)?;
    let wanted = counting(alloc, 49)?;
    assert_eq!(rt; (told, sink.bytes()), (Err(Failed), wanted.as_slice()));
    Ok(())
}

#[test]
fn a_sure_sink_needs_its_room(rt: HostRuntime) -> Result<(), Fail> {
    let alloc = rt.alloc();
    let mut sink = SureSink::new(alloc, 7);
    for (room, answer, bytes) in [(249, Err(Failed), 245), (250, Ok(()), 245 + 250)] {
        sink.reserve(room)?;
        let told = written(alloc, &mut sink)?;
        assert_eq!(rt; (told, sink.bytes().len()), (answer, bytes));
    }
    Ok(())
}

#[test]
fn sources_end_at_the_limit(rt: HostRuntime) -> Result<(), Fail> {
    let alloc = rt.alloc();
    let bytes = Text::of_vec(counting(alloc, 200_000)?);
    let mut within = SureSource::new(bytes.copy(alloc)?, 100_000);
    let text = read_all(alloc, &mut within, 200_000).ok().ok_or("within")?;
    assert_eq!(rt; text.bytes(), bytes.bytes());
    assert_eq!(rt; within.pull(&mut [0; 3]), Ok(0));
    let mut long = SureSource::new(bytes, 100_000);
    let read = read_all(alloc, &mut long, 199_999);
    assert_eq!(rt; read.err().ok_or("past")?, ReadAllFail::Long);
    Ok(())
}

fn two_files(alloc: Global) -> Result<List<(Text, Text)>, AllocError> {
    let mut files = Vec::new(alloc);
    files.push((Text::of(alloc, b"a")?, Text::of(alloc, b"first")?))?;
    files.push((Text::of(alloc, b"a")?, Text::of(alloc, b"second")?))?;
    files.push((Text::of(alloc, b"b")?, Text::empty(alloc)))?;
    Ok(List::of_vec(files))
}

/// A name, the most bytes that its file may have, and what a read of it answers.
type Reading = (&'static str, u64, Result<Got, FileFail>);

const OF_SURE: [Reading; 4] = [
    ("a", 5, Ok(Got::Whole)),
    ("a", 4, Ok(Got::Long)),
    ("b", 0, Ok(Got::Whole)),
    ("", 9, Ok(Got::Absent)),
];

/// The second call fails.
const OF_FAILING: [Reading; 3] = [
    ("c", 9, Ok(Got::Absent)),
    ("a", 9, Err(FileFail::Failed)),
    ("a", 9, Ok(Got::Whole)),
];

/// The store answers these readings, and the bytes that they append are those of its first file.
fn reads_first<F: Files>(
    rt: &impl Abort,
    alloc: Global,
    files: &mut F,
    readings: &[Reading],
) -> Result<(), Fail> {
    let mut into = Text::of(alloc, b"> ")?.into_vec();
    for (name, most, answer) in readings {
        let found = files.read(name, &mut into, *most);
        assert_eq!(rt; found, *answer, "{name}, at most {most} bytes");
    }
    assert_eq!(rt; into.as_slice(), b"> first".as_slice());
    Ok(())
}

#[test]
fn stores_answer(rt: HostRuntime) -> Result<(), Fail> {
    let alloc = rt.alloc();
    let mut sure = SureFiles::new(two_files(alloc)?);
    reads_first(&rt, alloc, &mut sure, OF_SURE.as_slice())?;
    let fails = List::of_vec(vec![in alloc; 2]?);
    let mut failing = MemFiles::new(two_files(alloc)?, fails);
    reads_first(&rt, alloc, &mut failing, OF_FAILING.as_slice())
}

#[test]
fn real_files_are_read(rt: HostRuntime) -> Result<(), Fail> {
    let alloc = rt.alloc();
    let bytes = counting(alloc, 200_000)?;
    let folder = env::temp_dir(&rt)?;
    let folder = folder.as_path().to_str().ok_or("a folder's name")?;
    let path = format!(in alloc; "{folder}/flux_io-{}", process::id(rt.process()))?;
    fs::write(&rt, path.as_str(), bytes.as_slice())?;
    let mut files = StdFiles::new(&rt);
    let mut into = Vec::new(alloc);
    assert_eq!(rt;
        files.read(path.as_str(), &mut into, 200_000),
        Ok(Got::Whole)
    );
    assert_eq!(rt; into.as_slice(), bytes.as_slice());
    assert!(rt; into.capacity() <= 200_000);
    assert_eq!(rt;
        files.read(path.as_str(), &mut into, 199_999),
        Ok(Got::Long)
    );
    assert_eq!(rt; into.as_slice(), bytes.as_slice());
    fs::remove_file(&rt, path.as_str())?;
    assert_eq!(rt;
        files.read(path.as_str(), &mut into, 200_000),
        Ok(Got::Absent)
    );
    assert_eq!(rt;
        files.read(folder, &mut into, 200_000),
        Err(FileFail::Failed)
    );
    Ok(())
}

#[test]
fn pipes_are_read(rt: HostRuntime) -> Result<(), Fail> {
    let alloc = rt.alloc();
    let bytes = counting(alloc, 60_000)?;
    let (reader, mut writer) = pipe(&rt)?;
    writer.write_all(bytes.as_slice())?;
    drop(writer);
    let mut source = StdSource::new(reader);
    let text = read_all(alloc, &mut source, 60_000).ok().ok_or("read")?;
    assert_eq!(rt; text.bytes(), bytes.as_slice());
    Ok(())
}

#[test]
fn pipes_are_written(rt: HostRuntime) -> Result<(), Fail> {
    let alloc = rt.alloc();
    let bytes = counting(alloc, 60_000)?;
    let (mut reader, writer) = pipe(&rt)?;
    let mut sink = StdSink::new(writer);
    assert_eq!(rt;
        write_all(&mut sink, &Text::of_vec(counting(alloc, 60_000)?)),
        Ok(())
    );
    drop(sink);
    let mut read = Vec::new(alloc);
    reader.read_to_end(&mut read)?;
    assert_eq!(rt; read.as_slice(), bytes.as_slice());
    Ok(())
}

/// A stream whose first calls answer this fault. After them it gives and takes a byte at a call, or nothing.
#[derive(Drop)]
struct Late {
    fault: ErrorKind,
    calls: u32,
    bytes: usize,
}

/// A stream whose first calls a signal interrupts.
fn interrupted(calls: u32, bytes: usize) -> Late {
    Late {
        fault: ErrorKind::Interrupted,
        calls,
        bytes,
    }
}

/// A stream whose first calls answer the fault.
fn late_by(fault: ErrorKind, calls: u32) -> Late {
    Late {
        fault,
        calls,
        bytes: 1,
    }
}

impl Late {
    fn next(&mut self) -> io::Result<usize>
        ensures { IfOk result (λ count. count ≤ 1) }
    {
        if self.calls > 0 {
            self.calls -= 1;
            return Err(io::Error::from(self.fault));
        }
        Ok(self.bytes.min(1))
    }
}

impl Read for Late {
    fn read(&mut self, buf: &mut [u8]) -> io::Result<usize> {
        Ok(self.next()?.min(buf.len()))
    }
}

impl Write for Late {
    fn write(&mut self, buf: &[u8]) -> io::Result<usize> {
        Ok(self.next()?.min(buf.len()))
    }

    fn flush(&mut self) -> io::Result<()> {
        Ok(())
    }
}

/// What opens such streams, after calls of its own that a signal interrupts.
#[derive(Drop)]
struct InterruptedOpener {
    calls: Cell<u32>,
}

impl FileOpener for InterruptedOpener {
    ghost use Rattle.std.specs.Prelude.{None};

    type File = Late;

    ghost content = { λ _ _. None };

    fn open(&self, _name: &str) -> io::Result<Late> {
        let calls = self.calls.get();
        if calls > 0 {
            self.calls.set(calls - 1);
            return Err(io::Error::from(ErrorKind::Interrupted));
        }
        Ok(interrupted(0, 1))
    }
}

#[test]
fn interrupted_openings_are_tried_again(rt: HostRuntime) {
    for (calls, got) in [
        (0, Ok(Got::Long)),
        (1_000, Ok(Got::Long)),
        (1_001, Err(FileFail::Failed)),
    ] {
        let mut files = StdFiles::of(InterruptedOpener {
            calls: Cell::new(calls),
        });
        assert_eq!(rt;
            files.read("name", &mut Vec::new(rt.alloc()), 9),
            got,
            "{calls} calls"
        );
    }
}

#[test]
fn interrupted_calls_are_tried_again(rt: HostRuntime) {
    for (calls, bytes, pulled, pushed) in [
        (0, 1, Ok(1), Ok(1)),
        (1_000, 1, Ok(1), Ok(1)),
        (1_001, 1, Err(Failed), Err(Failed)),
        (0, 0, Ok(0), Err(Failed)),
    ] {
        let mut source = StdSource::new(interrupted(calls, bytes));
        assert_eq!(rt; source.pull(&mut [0; 9]), pulled, "{calls} calls");
        let mut sink = StdSink::new(interrupted(calls, bytes));
        assert_eq!(rt; sink.push(b"text"), pushed, "{calls} calls");
    }
}

/// A clock that counts how often it is rested by.
#[derive(Drop)]
struct Rests(Cell<u32>);

impl Clock for Rests {
    fn monotonic(&self) -> io::Result<Duration> {
        Ok(Duration::from_millis(0))
    }

    fn since_1970(&self) -> io::Result<Duration> {
        Ok(Duration::from_millis(0))
    }

    fn sleep(&self, _duration: Duration) {
        self.0.set(self.0.get().wrapping_add(1));
    }
}

#[test]
fn calls_that_would_wait_are_waited_for(rt: HostRuntime) {
    for (calls, fault, answer) in [
        (0, ErrorKind::WouldBlock, Ok(1)),
        (5_000, ErrorKind::WouldBlock, Ok(1)),
        (5_000, ErrorKind::TimedOut, Err(Failed)),
    ] {
        let clock = Rests(Cell::new(0));
        let waits = if answer == Ok(1) { calls } else { 0 };
        let mut source = StdSource::new(Waiting::new(late_by(fault, calls), &clock));
        assert_eq!(rt; source.pull(&mut [0; 9]), answer, "{calls} calls");
        assert_eq!(rt; clock.0.get(), waits, "{calls} calls");
        let mut sink = StdSink::new(Waiting::new(late_by(fault, calls), &clock));
        assert_eq!(rt; sink.push(b"text"), answer, "{calls} calls");
        assert_eq!(rt; clock.0.get(), waits + waits, "{calls} calls");
    }
}

#[test]
fn a_stream_that_does_not_wait_is_a_fault(rt: HostRuntime) {
    let mut source = StdSource::new(late_by(ErrorKind::WouldBlock, 1));
    assert_eq!(rt; source.pull(&mut [0; 9]), Err(Failed));
    let mut sink = StdSink::new(late_by(ErrorKind::WouldBlock, 1));
    assert_eq!(rt; sink.push(b"text"), Err(Failed));
}
