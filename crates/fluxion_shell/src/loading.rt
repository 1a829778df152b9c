//! The graph of a file.
ghost use Rattle.std.specs.Prelude.{◌≡◌, IfOk, IfErr};
ghost use Rattle.flux_io.specs.Counts.{Rose};
ghost use Rattle.fluxion_shell.specs.Causes.{IsLoaded, FailsWith};

use crate::status::{Limited, Status, Which};
use flux_defs::MOST_FILE_BYTES;
use flux_io::{FileFail, Files, Got};
use graph_build::GraphFault;
use graph_json::{ReadFault, read_graph};
use resource_graph::Graph;
use std::alloc::Global;

/// More bytes than these were found.
pub(crate) fn too_long(which: Which) -> Status
    ensures { result ≡ Status.Limit (record { which = which; found = 268435457 }) }
{
    Status::Limit(Limited {
        which,
        found: MOST_FILE_BYTES + 1,
    })
}

/// The graph of the file of this name, or why there is none. Want of memory is told as such, also where it comes as the
/// fault of a graph.
pub(crate) fn load<F: Files>(alloc: Global, name: &str, files: &mut F) -> Result<Graph, Status>
    ensures loaded { IfOk result (IsLoaded (F.told files.old) name.now) }
    ensures failed { IfErr result (FailsWith (F.told files.old) name.now
        (Rose (F.faults files.old) (F.faults files.new)) (Rose (F.refused files.old) (F.refused files.new))) }
{
    let mut bytes = Vec::new(alloc);
    match files.read(name, &mut bytes, MOST_FILE_BYTES) {
        Ok(Got::Whole) => {}
        Ok(Got::Absent) => return Err(Status::NoGraphFile),
        Ok(Got::Long) => return Err(too_long(Which::GraphBytes)),
        Err(FileFail::Failed) => return Err(Status::Read),
        Err(FileFail::Memory) => return Err(Status::Memory),
    }
    match read_graph(alloc, bytes.as_slice()) {
        Ok(graph) => Ok(graph),
        Err(ReadFault::Memory) => Err(Status::Memory),
        Err(ReadFault::Graph(GraphFault::Memory)) => Err(Status::Memory),
        Err(fault) => Err(Status::Graph(fault)),
    }
}
