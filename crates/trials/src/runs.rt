//! Runs of the program over objects in memory: each call of the files, of the input and of the output fails in turn,
//! the graph file ends at each of its bytes, and a line is too long for a row; and the numbers of all statuses.
use crate::running::{Given, end_of};
use fluxion_shell::{Limited, Status, Which, code, fault_line};
use graph_json::ReadFault;
use small_graphs::TWO_NODES;
use std::alloc::Global;
use std::process::Abort;
use std::sync::Wait;
use std::test::Fail;
use std::thread::Threads;

/// The line of a job of two nodes for an hour, of 364 bytes.
const JOB: &[u8] =
    b"a allocate 1 {\"resources\":[{\"type\":\"node\",\"count\":2,\"with\":[{\"type\":\"slot\",\"count\":1,\"with\":[{\"type\":\"core\",\"count\":4}],\"label\":\"task\"}]}],\"tasks\":[{\"command\":[\"hostname\"],\"slot\":\"task\",\"count\":{\"per_slot\":1}}],\"attributes\":{\"system\":{\"duration\":3600.0,\"cwd\":\"/home/u\",\"environment\":{\"HOME\":\"/home/u\"},\"shell\":{\"options\":{\"rlimit\":{\"nofile\":1024}}}}},\"version\":1}\n";

/// Its answer, of 157 bytes.
const ANSWER: &[u8] =
    b"0 1 a allocated 1 0 {\"execution\":{\"R_lite\":[{\"children\":{\"core\":\"0-3\"},\"rank\":\"0-1\"}],\"expiration\":3600,\"nodelist\":[\"node[0-1]\"],\"starttime\":0},\"version\":1}\n";

/// Two lines, of 206 bytes.
const LINES: &[u8] =
    b"a allocate 1 {\"version\":1,\"resources\":[{\"type\":\"slot\",\"count\":2,\"label\":\"task\",\"with\":[{\"type\":\"core\",\"count\":3}]}],\"tasks\":[{\"command\":[\"app\"],\"slot\":\"task\",\"count\":{\"per_slot\":1}}]}\na release 1\n";

/// What answers them, of more than 150 bytes.
const ANSWERS: &[u8] =
    b"0 1 a allocated 1 0 {\"execution\":{\"R_lite\":[{\"children\":{\"core\":\"0-2\"},\"rank\":\"0-1\"}],\"expiration\":315360000,\"nodelist\":[\"node[0-1]\"],\"starttime\":0},\"version\":1}\n1 2 a invalid command\n";

const READ: &str = "fluxion: read fault\n";

const WRITE: &str = "fluxion: write fault\n";

/// The job's run reads 100 bytes at a time, and writes 7.
const JOB_RUN: Given = Given {
    command: "serve",
    graph: TWO_NODES.len(),
    input: JOB,
    read: 100,
    written: 7,
    room: 1_000,
    fails: [0, 0, 0],
};

/// The run of two lines reads them at once, and writes 100 bytes at a time.
const LINES_RUN: Given = Given {
    input: LINES,
    read: 100_000,
    written: 100,
    ..JOB_RUN
};

/// For how many bytes the output has room and which calls fail, of the files, of the input and of the output; the
/// number and the line with which the job's run has to end, and how many bytes of the answer it has to have written.
/// The input is given in four pieces, and then its end.
const JOB_RUNS: [(usize, [u64; 3], u8, &str, usize); 33] = [
    (1_000, [0, 0, 0], 0, "", 157),
    (50, [0, 0, 0], 5, WRITE, 49),
    (1_000, [1, 0, 0], 4, READ, 0),
    (1_000, [0, 1, 0], 4, READ, 0),
    (1_000, [0, 2, 0], 4, READ, 0),
    (1_000, [0, 3, 0], 4, READ, 0),
    (1_000, [0, 4, 0], 4, READ, 0),
    (1_000, [0, 5, 0], 4, READ, 0),
    (1_000, [0, 6, 0], 0, "", 157),
    (1_000, [0, 0, 1], 5, WRITE, 0),
    (1_000, [0, 0, 2], 5, WRITE, 7),
    (1_000, [0, 0, 3], 5, WRITE, 14),
    (1_000, [0, 0, 4], 5, WRITE, 21),
    (1_000, [0, 0, 5], 5, WRITE, 28),
    (1_000, [0, 0, 6], 5, WRITE, 35),
    (1_000, [0, 0, 7], 5, WRITE, 42),
    (1_000, [0, 0, 8], 5, WRITE, 49),
    (1_000, [0, 0, 9], 5, WRITE, 56),
    (1_000, [0, 0, 10], 5, WRITE, 63),
    (1_000, [0, 0, 11], 5, WRITE, 70),
    (1_000, [0, 0, 12], 5, WRITE, 77),
    (1_000, [0, 0, 13], 5, WRITE, 84),
    (1_000, [0, 0, 14], 5, WRITE, 91),
    (1_000, [0, 0, 15], 5, WRITE, 98),
    (1_000, [0, 0, 16], 5, WRITE, 105),
    (1_000, [0, 0, 17], 5, WRITE, 112),
    (1_000, [0, 0, 18], 5, WRITE, 119),
    (1_000, [0, 0, 19], 5, WRITE, 126),
    (1_000, [0, 0, 20], 5, WRITE, 133),
    (1_000, [0, 0, 21], 5, WRITE, 140),
    (1_000, [0, 0, 22], 5, WRITE, 147),
    (1_000, [0, 0, 23], 5, WRITE, 154),
    (1_000, [0, 0, 24], 0, "", 157),
];

/// The command and which calls fail; and how the run of two lines has to end, as above.
const LINES_RUNS: [(&str, [u64; 3], u8, &str, usize); 8] = [
    ("serve", [0, 0, 0], 0, "", ANSWERS.len()),
    ("serve", [0, 1, 0], 4, READ, 0),
    ("serve", [0, 2, 0], 4, READ, 0),
    ("serve", [0, 0, 1], 5, WRITE, 0),
    ("serve", [0, 0, 2], 5, WRITE, 100),
    ("serve", [1, 0, 0], 4, READ, 0),
    ("graph", [1, 0, 0], 4, READ, 0),
    ("graph", [0, 0, 1], 5, WRITE, 0),
];

/// The run ends with this number and this line, and has written so many bytes of the answer.
fn ends_with<R: Abort + Threads + Wait + Sync>(
    rt: &R,
    alloc: Global,
    given: Given,
    number: u8,
    line: &str,
    written: &[u8],
) -> Result<(), Fail> {
    let ended = end_of(rt, alloc, &given)?;
    let found = (ended.status, ended.fault.bytes(), ended.output.bytes());
    assert_eq!(rt; found, (number, line.as_bytes(), written));
    Ok(())
}

#[test]
fn each_call_may_fail(rt: HostRuntime) -> Result<(), Fail> {
    for (room, fails, number, line, written) in JOB_RUNS {
        let given = Given {
            room,
            fails,
            ..JOB_RUN
        };
        let front = ANSWER.get(..written).ok_or("a front")?;
        ends_with(&rt, rt.alloc(), given, number, line, front)?;
    }
    Ok(())
}

#[test]
fn failing_calls_are_told(rt: HostRuntime) -> Result<(), Fail> {
    for (command, fails, number, line, written) in LINES_RUNS {
        let given = Given {
            command,
            fails,
            ..LINES_RUN
        };
        let front = ANSWERS.get(..written).ok_or("a front")?;
        ends_with(&rt, rt.alloc(), given, number, line, front)?;
    }
    Ok(())
}

#[test]
fn a_file_that_ends_early_is_no_json(rt: HostRuntime) -> Result<(), Fail> {
    for graph in 0..TWO_NODES.len() {
        let given = Given { graph, ..JOB_RUN };
        ends_with(&rt, rt.alloc(), given, 3, "fluxion: graph: json\n", b"")?;
    }
    Ok(())
}

#[test]
fn a_long_line_is_past_a_limit(rt: HostRuntime) -> Result<(), Fail> {
    for (bytes, number, line, output) in [
        (1_048_576, 0, "", "0 1 - invalid client\n"),
        (1_048_577, 7, "fluxion: limit: line-bytes 1\n", ""),
    ] {
        let input = vec![in rt.alloc(); b'a'; bytes]?;
        let given = Given {
            input: input.as_slice(),
            ..LINES_RUN
        };
        ends_with(&rt, rt.alloc(), given, number, line, output.as_bytes())?;
    }
    Ok(())
}

#[test]
fn each_status_has_its_number(rt: HostRuntime) -> Result<(), Fail> {
    let alloc = rt.alloc();
    for (which, found, line) in [
        (
            Which::GraphBytes,
            268_435_457,
            "fluxion: limit: graph-bytes 268435457\n",
        ),
        (
            Which::InputBytes,
            268_435_457,
            "fluxion: limit: input-bytes 268435457\n",
        ),
        (Which::Lines, 262_145, "fluxion: limit: lines 262145\n"),
        (Which::Clients, 65, "fluxion: limit: clients 65\n"),
        (Which::Barred, 2, "fluxion: limit: barred 2\n"),
    ] {
        let status = Status::Limit(Limited { which, found });
        assert_eq!(rt; fault_line(alloc, &status)?.bytes(), line.as_bytes());
        assert_eq!(rt; code(&status), 7);
    }
    assert_eq!(rt; code(&Status::Ok), 0);
    assert_eq!(rt; code(&Status::Usage), 2);
    assert_eq!(rt; code(&Status::Graph(ReadFault::NotJson)), 3);
    assert_eq!(rt; code(&Status::Read), 4);
    assert_eq!(rt; code(&Status::Write), 5);
    assert_eq!(rt; code(&Status::Memory), 6);
    assert_eq!(rt; code(&Status::NoGraphFile), 8);
    Ok(())
}
