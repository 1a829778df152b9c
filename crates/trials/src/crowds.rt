//! Runs with several clients, which hand in their lines beside each other. What a run writes has to be the text of one
//! history; here a plain player of one thread makes that text, by the order that the column LINE of what was written
//! names.
ghost use Rattle.std.specs.Prelude.{◌≡◌, OnOk};
ghost use Rattle.std.specs.Arc.{arc_value};
ghost use Rattle.sched_core.specs.Played.{AreProper};

use crate::running::{Given, end_of};
use flux_defs::{ClientLine, Limits, List, SHIPPED, Text};
use fluxion_lines::{Form, history_text, line_feeds, read_lines};
use history_scenes::{Bounds, core_over};
use resource_graph::Graph;
use sched_core::Core;
use small_graphs::{TWO_NODES, shared_graph};
use std::alloc::{AllocError, Global};
use std::sync::Arc;
use std::test::Fail;
use text_forms::number_in;

/// The horizon without an option, and the most claims of all accepted jobs.
const BOUNDS: Bounds = Bounds {
    horizon: 315_360_000,
    claims: SHIPPED.claims,
};

/// A jobspec for one core of a slot, and one for a node of its own.
const CORE: &str =
    r#"{"version":1,"resources":[{"type":"slot","count":1,"label":"a","with":[{"type":"core","count":1}]}],"tasks":[{"command":["app"],"slot":"a","count":{"per_slot":1}}],"attributes":{"system":{"duration":60}}}"#;

const NODE: &str =
    r#"{"version":1,"resources":[{"type":"node","count":1,"exclusive":true,"with":[{"type":"slot","count":1,"label":"a","with":[{"type":"core","count":1}]}]}],"tasks":[{"command":["app"],"slot":"a","count":{"per_slot":1}}],"attributes":{"system":{"duration":60}}}"#;

/// The numbers of the input's lines that an output answers, in its order.
fn order_in(alloc: Global, output: &[u8]) -> Result<Vec<u64>, AllocError> {
    let mut order = Vec::new(alloc);
    for line in output.split(|byte| *byte == b'\n') {
        if let Some(word) = line.split(|byte| *byte == b' ').nth(1) {
            order.push(number_in(word).unwrap_or(0))?;
        }
    }
    Ok(order)
}

/// Whether each line stands in the order once, and those of each client in theirs: for each client the numbers rise, so
/// none is repeated.
fn interleaves(lines: &List<ClientLine>, order: &[u64]) -> bool {
    let mut last = [0_u64; 64];
    for number in order {
        let Some(line) = lines.get((*number as usize).saturating_sub(1)) else {
            return false;
        };
        let Some(last) = last.get_mut(line.client as usize) else {
            return false;
        };
        if *number <= *last {
            return false;
        }
        *last = *number;
    }
    order.len() == lines.len()
}

/// Decides the line of that number.
fn decide_line(
    alloc: Global,
    lines: &List<ClientLine>,
    number: u64,
    core: &mut Core,
) -> Result<(), Fail>
    requires { AreProper core.old.setting.graph.vertices lines.now }
    ensures { OnOk result (core.new.setting.graph ≡ core.old.setting.graph) }
{
    let Some(line) = lines.get((number as usize).saturating_sub(1)) else {
        return Err(Fail::from("no line"));
    };
    let command = line.command.copy(alloc)?;
    if core.decide(line.client, line.line, command).is_err() {
        return Err(Fail::from("no memory"));
    }
    Ok(())
}

/// A scheduler that decided the lines in an order.
fn decided(
    alloc: Global,
    graph: &Arc<Graph, Global>,
    lines: &List<ClientLine>,
    order: &[u64],
) -> Result<Core, Fail>
    requires { AreProper (arc_value graph.now).resources.vertices lines.now }
{
    let mut core = core_over(alloc, graph, BOUNDS)?;
    for number in order {
        decide_line(alloc, lines, *number, &mut core)?;
    }
    Ok(core)
}

/// The text of the history of an input's lines in the order that an output names, where that is one of its lines.
fn plain(alloc: Global, input: &[u8], output: &[u8]) -> Result<Text, Fail> {
    let graph = shared_graph(alloc, TWO_NODES)?;
    let read = read_lines(alloc, &graph, Form::Rfc14, input, &Limits::shipped())?;
    let order = order_in(alloc, output)?;
    if !interleaves(&read.lines, order.as_slice()) {
        return Err(Fail::from("not each line once, in the order of its client"));
    }
    let core = decided(alloc, &graph, &read.lines, order.as_slice())?;
    Ok(history_text(alloc, &graph, &read.clients, core.entries())?)
}

/// Ten lines of each of three clients, which have jobs of their own.
fn three_clients(alloc: Global) -> Result<String, AllocError> {
    let mut input = String::new(alloc);
    for (client, jobs) in [("a", "1"), ("b", "2"), ("c", "3")] {
        input.push_str(format!(in alloc;
            "{client} allocate {jobs}0 {CORE}\n{client} reserve {jobs}1 {NODE}\n{client} info {jobs}1\n{client} satisfy {NODE}\n{client} allocate {jobs}2 {NODE}\n{client} cancel {jobs}1\n{client} reserve {jobs}3 {NODE}\n{client} allocate {jobs}0 {CORE}\n{client} advance 20\n{client} info {jobs}3\n"
        )?.as_str())?;
    }
    Ok(input)
}

/// A line of each of the most clients that there may be.
fn most_clients(alloc: Global) -> Result<String, AllocError> {
    let mut input = String::new(alloc);
    for client in 0..64 {
        input.push_str(format!(in alloc; "c{client} allocate {client} {CORE}\n")?.as_str())?;
    }
    Ok(input)
}

#[test]
fn clients_make_one_history(rt: HostRuntime) -> Result<(), Fail> {
    let alloc = rt.alloc();
    for (input, count) in [(three_clients(alloc)?, 30), (most_clients(alloc)?, 64)] {
        let ended = end_of(
            &rt,
            alloc,
            &Given {
                command: "serve",
                graph: TWO_NODES.len(),
                input: input.as_bytes(),
                read: 1_000,
                written: 1_000,
                room: 100_000,
                fails: [0, 0, 0],
            },
        )?;
        let wanted = plain(alloc, input.as_bytes(), ended.output.bytes())?;
        let found = (
            ended.status,
            line_feeds(ended.output.bytes()),
            ended.output.bytes(),
        );
        assert_eq!(rt; found, (0, count, wanted.bytes()));
    }
    Ok(())
}
