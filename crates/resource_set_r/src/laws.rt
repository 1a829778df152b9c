//! Laws of what is written and read.
ghost use Rattle.std.specs.Prelude.{◌≡◌, ◌≢◌, ℕ, ◌≤◌, List};
ghost use Rattle.std.specs.List.{AllByRecursion};
ghost use Rattle.flux_defs.specs.declared.claims.Job.{Job};
ghost use Rattle.flux_defs.specs.declared.limits.TheConstants.{GREATEST_NUMBER};
ghost use Rattle.graph_json.specs.FileGraph.{IsFileGraph};
ghost use Rattle.resource_graph.specs.NamedGraph.{NamedGraph};
ghost use Rattle.resource_set_r.specs.ReadBack.{AreReadBack, CanBeRead, HasSmallQuantity};
ghost use Rattle.resource_set_r.specs.Said.{AreIdsOfClaims, AreRanksOfClaims};
ghost use Rattle.resource_set_r.specs.ReadR.{IsRText, IsFirstFault};

use crate::faults::RFault;
use crate::sets_read::RSet;

/// A law: R that `write_r` writes of a job is R of a set, which has the job's ranks, by element its cores and gpus,
/// hosts that name its nodes in rising order of rank, and its start and end. The vertices have names in the grammar of
/// hosts, their ids and ranks are ids, and seconds are at most 2^46, as those of every graph of a file.
pub fn written_sets_are_read_back()
    ensures { AreReadBack }
{}

/// A law: the bytes say one set at most, have no fault where they say one, and have one fault at most, want of memory
/// aside.
pub fn a_text_has_one_set()
    ensures one { (bytes : List ℕ) (a b : RSet) → IsRText bytes a → IsRText bytes b → a ≡ b }
    ensures faultless { (bytes : List ℕ) (set : RSet) (fault : RFault) → IsRText bytes set → IsFirstFault bytes fault →
        fault ≡ RFault.Memory }
    ensures one_fault { (bytes : List ℕ) (a b : RFault) → a ≢ RFault.Memory → b ≢ RFault.Memory → IsFirstFault bytes a →
        IsFirstFault bytes b → a ≡ b }
{}

/// A law: a job with quantities of 64 bits, from and to seconds up to 2^46, on a graph that a graph file can hold is
/// such a job.
pub fn jobs_on_graphs_of_files_can_be_read()
    ensures { (g : NamedGraph) (job : Job) → IsFileGraph g → AllByRecursion HasSmallQuantity job.claims →
        job.start ≤ GREATEST_NUMBER → job.end ≤ GREATEST_NUMBER → CanBeRead g job }
{}

/// A law: the ranks of R are those of the nodes for which some claim is on the node or below it, or which lie at or
/// below a held vertex.
pub fn ranks_are_those_of_the_claims()
    ensures { AreRanksOfClaims }
{}

/// A law: the ids of a rank's children are those of the vertices of the type at or below its node which have a claim or
/// lie at or below a held vertex.
pub fn ids_are_those_of_the_claims()
    ensures { AreIdsOfClaims }
{}
