//! A history of eight clients beside the same history played by one scheduler of one thread.
ghost use Rattle.std.specs.Prelude.{◌≡◌, ◌<◌, OnOk};
ghost use Rattle.std.specs.Arc.{arc_value};

use crate::plays::{BOUNDS, played};
use flux_defs::{List, OpenGate, Text};
use fluxion_lines::history_text;
use history_scenes::core_over;
use one_history::Played;
use resource_graph::Graph;
use sched_core::Core;
use small_graphs::{TWO_NODES, shared_graph};
use std::alloc::{AllocError, Global};
use std::sync::{Arc, Wait};
use std::test::Fail;
use std::thread::Threads;

const CLIENTS: u64 = 8;

const ROUNDS: u64 = 6;

// A jobspec for a slot of so many cores, for so many seconds.
fn spec(alloc: Global, cores: u64, seconds: u64) -> Result<String, AllocError> {
    format!(in alloc;
        "{{\"version\":1,\"resources\":[{{\"type\":\"slot\",\"count\":1,\"label\":\"a\",\"with\":[{{\"type\":\"core\",\"count\":{cores}}}]}}],\"tasks\":[{{\"command\":[\"app\"],\"slot\":\"a\",\"count\":{{\"per_slot\":1}}}}],\"attributes\":{{\"system\":{{\"duration\":{seconds}}}}}}}"
    )
}

// Six lines of a client: one of each command.
fn six_lines(alloc: Global, client: u64, round: u64) -> Result<String, AllocError>
    requires client { client < 8 }
    requires round { round < 6 }
{
    let job = 100 * client + 10 * round;
    let other = job + 1;
    let moment = 7 * round;
    let small = spec(alloc, 1 + round % 3, 60)?;
    let large = spec(alloc, 4, 20 + client)?;
    format!(in alloc;
        "c{client} allocate {job} {small}\nc{client} reserve {other} {large}\nc{client} satisfy {large}\nc{client} info {other}\nc{client} cancel {job}\nc{client} advance {moment}\n"
    )
}

fn all_lines(alloc: Global) -> Result<String, AllocError> {
    let mut text = String::new(alloc);
    for round in 0..ROUNDS {
        for client in 0..CLIENTS {
            text.push_str(six_lines(alloc, client, round)?.as_str())?;
        }
    }
    Ok(text)
}

// Decides the command at that place of a history by another scheduler over the same graph.
fn decide_again(alloc: Global, core: &Core, at: u64, again: &mut Core) -> Result<(), Fail>
    requires { again.old.setting.graph ≡ core.now.setting.graph }
    ensures { OnOk result (again.new.setting.graph ≡ again.old.setting.graph) }
{
    core.is_sound();
    let Some(entry) = core.entry(at) else {
        return Err(Fail::from("no entry"));
    };
    let command = entry.command.copy(alloc)?;
    match again.decide(entry.client, entry.line, command) {
        Ok(_) => Ok(()),
        Err(_) => Err(Fail::from("out of memory")),
    }
}

// The commands of a history, decided in its order by another scheduler.
fn replayed(alloc: Global, graph: &Arc<Graph, Global>, core: &Core) -> Result<Core, Fail>
    requires { core.now.setting.graph ≡ (arc_value graph.now).resources }
{
    let mut again = core_over(alloc, graph, BOUNDS)?;
    for at in 0..core.len() {
        decide_again(alloc, core, at, &mut again)?;
    }
    Ok(again)
}

// Whether the entries of both schedulers are the same texts.
fn write_alike(
    alloc: Global,
    graph: &Graph,
    clients: &List<Text>,
    one: &Core,
    other: &Core,
) -> Result<bool, AllocError> {
    let text = history_text(alloc, graph, clients, one.entries())?;
    let again = history_text(alloc, graph, clients, other.entries())?;
    Ok(text.bytes() == again.bytes())
}

// How many entries were played together, and whether they are the same texts when they are decided again.
fn told_of(
    alloc: Global,
    graph: &Arc<Graph, Global>,
    together: &Played,
) -> Result<(u64, bool), Fail>
    requires { together.now.core.setting.graph ≡ (arc_value graph.now).resources }
{
    let alone = replayed(alloc, graph, &together.core)?;
    let alike = write_alike(alloc, graph, &together.clients, &together.core, &alone)?;
    Ok((together.core.len(), alike))
}

// The same of eight clients' lines.
fn told<R: Threads + Wait + Sync>(
    rt: &R,
    alloc: Global,
    graph: &Arc<Graph, Global>,
) -> Result<(u64, bool), Fail> {
    let input = all_lines(alloc)?;
    let together = played(rt, alloc, graph, input.as_bytes(), &OpenGate)?;
    told_of(alloc, graph, &together)
}

#[test]
fn eight_clients_write_what_one_thread_writes(rt: HostRuntime) -> Result<(), Fail> {
    let graph = shared_graph(rt.alloc(), TWO_NODES)?;
    assert_eq!(rt;
        told(&rt, rt.alloc(), &graph)?,
        (6 * CLIENTS * ROUNDS, true)
    );
    Ok(())
}
