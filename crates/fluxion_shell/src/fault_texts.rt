//! What is wrong with a graph file, in words.
ghost use Rattle.std.specs.Prelude.{◌≡◌, ◌++◌, decimal, OnOk};
ghost use Rattle.fluxion_shell.specs.Ends.{graph_words, fault_words};

use graph_build::GraphFault;
use graph_json::ReadFault;
use json_fields::field_word;
use std::alloc::AllocError;
use text_forms::{push_bytes, push_decimal};

/// Adds the words and the number.
fn add_counted(line: &mut Vec<u8>, words: &[u8], number: u64) -> Result<(), AllocError>
    ensures { OnOk result (line.new.items ≡ line.old.items ++ words.now ++ decimal number) }
{
    push_bytes(line, words)?;
    push_decimal(line, number)
}

/// Adds what is wrong with a list of vertices.
fn add_graph_fault(line: &mut Vec<u8>, fault: &GraphFault) -> Result<(), AllocError>
    ensures { OnOk result (line.new.items ≡ line.old.items ++ graph_words fault.now) }
{
    match fault {
        GraphFault::Vertices { found } => add_counted(line, b"vertices ", *found),
        GraphFault::Kinds { found } => add_counted(line, b"kinds ", *found),
        GraphFault::UnknownParent { vertex } => add_counted(line, b"parent ", *vertex as u64),
        GraphFault::UnknownKind { vertex } => add_counted(line, b"kind ", *vertex as u64),
        GraphFault::NoRoot => push_bytes(line, b"no root"),
        GraphFault::ManyRoots { vertex } => add_counted(line, b"roots ", *vertex as u64),
        GraphFault::Cycle { vertex } => add_counted(line, b"cycle ", *vertex as u64),
        GraphFault::Depth { vertex } => add_counted(line, b"depth ", *vertex as u64),
        GraphFault::NestedKind { vertex } => add_counted(line, b"nested ", *vertex as u64),
        GraphFault::ReservedKind { vertex } => add_counted(line, b"reserved ", *vertex as u64),
        GraphFault::PoolWithChild { vertex } => add_counted(line, b"pool child ", *vertex as u64),
        GraphFault::Sized { vertex } => add_counted(line, b"sized ", *vertex as u64),
        GraphFault::Large { vertex } => add_counted(line, b"large ", *vertex as u64),
        GraphFault::Loose { vertex } => add_counted(line, b"loose ", *vertex as u64),
        GraphFault::NoId { vertex } => add_counted(line, b"no id ", *vertex as u64),
        GraphFault::DuplicateId { vertex } => add_counted(line, b"id ", *vertex as u64),
        GraphFault::DuplicateName { vertex } => add_counted(line, b"name ", *vertex as u64),
        GraphFault::Ranks { vertex } => add_counted(line, b"ranks ", *vertex as u64),
        GraphFault::Memory => push_bytes(line, b"memory"),
    }
}

/// Adds what is wrong with a graph file.
pub(crate) fn add_fault(line: &mut Vec<u8>, fault: &ReadFault) -> Result<(), AllocError>
    ensures { OnOk result (line.new.items ≡ line.old.items ++ fault_words fault.now) }
{
    match fault {
        ReadFault::NotJson => push_bytes(line, b"json"),
        ReadFault::Field { path, fault } => {
            push_bytes(line, b"field ")?;
            push_bytes(line, path.bytes())?;
            push_bytes(line, b" ")?;
            push_bytes(line, field_word(*fault).as_bytes())
        }
        ReadFault::DuplicateNode { at } => add_counted(line, b"node ", *at),
        ReadFault::Edge { at } => add_counted(line, b"edge ", *at),
        ReadFault::Graph(fault) => add_graph_fault(line, fault),
        ReadFault::Memory => push_bytes(line, b"memory"),
    }
}
