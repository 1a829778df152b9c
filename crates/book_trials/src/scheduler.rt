//! The scheduler of one thread with fewer claims than the program gives it, and lines of one client alone.
ghost use Rattle.std.specs.Prelude.{◌≡◌, IfOk};
ghost use Rattle.std.specs.Arc.{arc_value};

use flux_defs::{Claim, Command, Entry, Limits, Line, List, Reply, Text};
use fluxion_lines::{Form, history_text, read_lines};
use prune_filters::Rules;
use resource_graph::Graph;
use sched_core::{Core, play, play_client};
use small_graphs::{TWO_NODES, shared_graph};
use std::alloc::{AllocError, Global};
use std::sync::Arc;
use std::test::Fail;
use text_forms::{push_bytes, push_decimal};

/// Two lines of one client: asks for four cores and for one, each for a minute. The first job has five claims.
const TWO_ASKS: &[u8] =
    b"a allocate 1 {\"version\":1,\"resources\":[{\"type\":\"slot\",\"count\":1,\"label\":\"a\",\"with\":[{\"type\":\"core\",\"count\":4}]}],\"tasks\":[{\"command\":[\"app\"],\"slot\":\"a\",\"count\":{\"total\":1}}],\"attributes\":{\"system\":{\"duration\":60}}}\na allocate 2 {\"version\":1,\"resources\":[{\"type\":\"slot\",\"count\":1,\"label\":\"a\",\"with\":[{\"type\":\"core\",\"count\":1}]}],\"tasks\":[{\"command\":[\"app\"],\"slot\":\"a\",\"count\":{\"total\":1}}],\"attributes\":{\"system\":{\"duration\":60}}}\n";

/// What has to be told of them: the claims of the second would be too many.
const ONE_ALLOCATED: &[u8] =
    b"second 0, 2 entries\nsecond 9, 3 entries\npass 1\nhold 2\nhold 3\nhold 4\nhold 5\n0 1 a allocated 1 0 {\"execution\":{\"R_lite\":[{\"children\":{\"core\":\"0-3\"},\"rank\":\"0\"}],\"expiration\":60,\"nodelist\":[\"node0\"],\"starttime\":0},\"version\":1}\n1 2 a full\n2 3 a now 9\n";

/// A line of each of two clients; and what has to be told of them.
const OF_TWO: &[u8] = b"a advance 7\nb cancel 1\n";

const BOTH_PLAYED: &[u8] =
    b"second 7, 2 entries\nsecond 9, 3 entries\n0 1 a now 7\n1 2 b absent\n2 3 a now 9\n";

/// Tells of a scheduler its present moment, and how many entries it has.
fn tell_moment(core: &Core, told: &mut Vec<u8>) -> Result<(), AllocError> {
    push_bytes(told, b"second ")?;
    push_decimal(told, core.now())?;
    push_bytes(told, b", ")?;
    push_decimal(told, core.len())?;
    push_bytes(told, b" entries\n")
}

/// Tells a claim, a line each.
fn tell_claim(claim: Claim, told: &mut Vec<u8>) -> Result<(), AllocError> {
    let word = match claim {
        Claim::Take { .. } => b"take ".as_slice(),
        Claim::Hold { .. } => b"hold ".as_slice(),
        Claim::Pass { .. } => b"pass ".as_slice(),
    };
    push_bytes(told, word)?;
    push_decimal(told, claim.vertex() as u64)?;
    push_bytes(told, b"\n")
}

/// Tells the claims of a job that starts at once; nothing of another entry.
fn tell_claims(entry: Option<&Entry>, told: &mut Vec<u8>) -> Result<(), AllocError> {
    if let Some(entry) = entry {
        if let Reply::Allocated(job) = &entry.reply {
            for claim in job.claims.items() {
                tell_claim(*claim, told)?;
            }
        }
    }
    Ok(())
}

/// A scheduler over the graph that accepts 5 claims in all.
fn narrow(alloc: Global, graph: Arc<Graph, Global>) -> Result<Core, AllocError>
    ensures { IfOk result (λ core. core.setting.graph ≡ (arc_value graph).resources) }
{
    match Rules::read(alloc, b"ALL:core") {
        Ok(rules) => Core::new(alloc, graph, rules, 1000, 5),
        Err(_) => Err(AllocError),
    }
}

/// Plays the lines of an input.
fn play_input(
    alloc: Global,
    graph: &Graph,
    core: &mut Core,
    input: &[u8],
) -> Result<List<Text>, AllocError>
    requires graph { core.old.setting.graph ≡ graph.now.resources }
{
    match read_lines(alloc, graph, Form::Rfc14, input, &Limits::shipped()) {
        Ok(read) => {
            play(core, read.lines.into_vec())?;
            Ok(read.clients)
        }
        Err(_) => Err(AllocError),
    }
}

/// Plays one line more, of the first client alone.
fn play_line(alloc: Global, core: &mut Core) -> Result<(), AllocError> {
    let last = Line {
        line: 3,
        command: Command::Advance { to: 9 },
    };
    play_client(core, 0, vec![in alloc; last]?)?;
    core.is_sound();
    Ok(())
}

/// What is told of a scheduler over the graph when it has played an input, and when it has played one line more; and
/// what it answers.
fn tell(alloc: Global, graph: &Graph, core: &mut Core, input: &[u8]) -> Result<Vec<u8>, AllocError>
    requires graph { core.old.setting.graph ≡ graph.now.resources }
{
    let clients = play_input(alloc, graph, core, input)?;
    let mut told = Vec::new(alloc);
    tell_moment(core, &mut told)?;
    play_line(alloc, core)?;
    tell_moment(core, &mut told)?;
    tell_claims(core.entry(0), &mut told)?;
    let text = history_text(alloc, graph, &clients, core.entries())?;
    push_bytes(&mut told, text.bytes())?;
    Ok(told)
}

/// The same of a scheduler over two nodes that accepts 5 claims in all.
fn played(alloc: Global, input: &[u8]) -> Result<Vec<u8>, Fail> {
    let graph = shared_graph(alloc, TWO_NODES)?;
    let mut core = narrow(alloc, Arc::try_clone(&graph)?)?;
    Ok(tell(alloc, &graph, &mut core, input)?)
}

#[test]
fn lines_are_played(rt: HostRuntime) -> Result<(), Fail> {
    for (input, wanted) in [(TWO_ASKS, ONE_ALLOCATED), (OF_TWO, BOTH_PLAYED)] {
        assert_eq!(rt; played(rt.alloc(), input)?.as_slice(), wanted);
    }
    Ok(())
}
