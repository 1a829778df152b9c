//! The jobspecs of a load.
ghost use Rattle.std.specs.Prelude.{◌≡◌, IfOk};
ghost use Rattle.load_script.specs.Jobspecs.{core_request, memory_request, slot_request, node_request, task_text};
ghost use Rattle.load_script.specs.Jobspecs.{jobspec, core_and_memory, nodes_jobspec, slots_jobspec, memory_jobspec};

use flux_defs::Text;
use std::alloc::{AllocError, Global};
use text_forms::{push_bytes, push_decimal};

/// So many cores.
fn core_request(alloc: Global, count: u64) -> Result<Text, AllocError>
    ensures { IfOk result (λ text. text ≡ core_request count) }
{
    let mut text = Vec::from_slice(alloc, b"{\"type\":\"core\",\"count\":")?;
    push_decimal(&mut text, count)?;
    push_bytes(&mut text, b"}")?;
    Ok(Text::of_vec(text))
}

/// So many units of memory.
fn memory_request(alloc: Global, count: u64) -> Result<Text, AllocError>
    ensures { IfOk result (λ text. text ≡ memory_request count) }
{
    let mut text = Vec::from_slice(alloc, b"{\"type\":\"memory\",\"count\":")?;
    push_decimal(&mut text, count)?;
    push_bytes(&mut text, b"}")?;
    Ok(Text::of_vec(text))
}

/// So many slots over these requests.
fn slot_request(alloc: Global, count: u64, within: &[u8]) -> Result<Text, AllocError>
    ensures { IfOk result (λ text. text ≡ slot_request count within.now) }
{
    let mut text = Vec::from_slice(alloc, b"{\"type\":\"slot\",\"count\":")?;
    push_decimal(&mut text, count)?;
    push_bytes(&mut text, b",\"label\":\"task\",\"with\":[")?;
    push_bytes(&mut text, within)?;
    push_bytes(&mut text, b"]}")?;
    Ok(Text::of_vec(text))
}

/// So many nodes over these requests.
fn node_request(alloc: Global, count: u64, within: &[u8]) -> Result<Text, AllocError>
    ensures { IfOk result (λ text. text ≡ node_request count within.now) }
{
    let mut text = Vec::from_slice(alloc, b"{\"type\":\"node\",\"count\":")?;
    push_decimal(&mut text, count)?;
    push_bytes(&mut text, b",\"with\":[")?;
    push_bytes(&mut text, within)?;
    push_bytes(&mut text, b"]}")?;
    Ok(Text::of_vec(text))
}

/// The task of a jobspec, and its attributes up to the duration.
fn task_text() -> &'static [u8]
    ensures { result.now ≡ task_text }
{
    b"],\"tasks\":[{\"command\":[\"app\"],\"slot\":\"task\",\"count\":{\"per_slot\":1}}],\"attributes\":{\"system\":{\"duration\":"
}

/// A jobspec of this request, for so many seconds.
fn jobspec(alloc: Global, resources: &[u8], seconds: u64) -> Result<Text, AllocError>
    ensures { IfOk result (λ text. text ≡ jobspec resources.now seconds) }
{
    let mut text = Vec::from_slice(alloc, b"{\"version\":1,\"resources\":[")?;
    push_bytes(&mut text, resources)?;
    push_bytes(&mut text, task_text())?;
    push_decimal(&mut text, seconds)?;
    push_bytes(&mut text, b"}}}")?;
    Ok(Text::of_vec(text))
}

/// The requests for a core and two units of memory.
fn core_and_memory(alloc: Global) -> Result<Text, AllocError>
    ensures { IfOk result (λ text. text ≡ core_and_memory) }
{
    let mut text = core_request(alloc, 1)?.into_vec();
    push_bytes(&mut text, b",")?;
    push_bytes(&mut text, memory_request(alloc, 2)?.bytes())?;
    Ok(Text::of_vec(text))
}

/// Nodes, in each a slot of so many cores.
pub(crate) fn nodes_jobspec(
    alloc: Global,
    nodes: u64,
    cores: u64,
    seconds: u64,
) -> Result<Text, AllocError>
    ensures { IfOk result (λ text. text ≡ nodes_jobspec nodes cores seconds) }
{
    let core = core_request(alloc, cores)?;
    let slot = slot_request(alloc, 1, core.bytes())?;
    let node = node_request(alloc, nodes, slot.bytes())?;
    jobspec(alloc, node.bytes(), seconds)
}

/// Slots of one core.
pub(crate) fn slots_jobspec(alloc: Global, slots: u64, seconds: u64) -> Result<Text, AllocError>
    ensures { IfOk result (λ text. text ≡ slots_jobspec slots seconds) }
{
    let core = core_request(alloc, 1)?;
    let slot = slot_request(alloc, slots, core.bytes())?;
    jobspec(alloc, slot.bytes(), seconds)
}

/// Slots of one core and two units of memory.
pub(crate) fn memory_jobspec(alloc: Global, slots: u64, seconds: u64) -> Result<Text, AllocError>
    ensures { IfOk result (λ text. text ≡ memory_jobspec slots seconds) }
{
    let both = core_and_memory(alloc)?;
    let slot = slot_request(alloc, slots, both.bytes())?;
    jobspec(alloc, slot.bytes(), seconds)
}
