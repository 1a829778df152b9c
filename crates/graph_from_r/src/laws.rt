//! Laws of the graphs of resource sets, each the contract of a public function that does nothing.
ghost use Rattle.std.specs.Prelude.{◌≡◌, ℕ, List};
ghost use Rattle.resource_graph.specs.NamedGraph.{NamedGraph};
ghost use Rattle.graph_from_r.specs.Graphs.{IsGraphOfR, IsFirstFault};

use crate::faults::LoadFault;

/// A law: bytes are a resource set of at most one graph, and have no fault where they have one.
pub fn a_resource_set_has_one_graph()
    ensures one { (bytes : List ℕ) (g h : NamedGraph) → IsGraphOfR bytes g → IsGraphOfR bytes h → g ≡ h }
    ensures faultless { (bytes : List ℕ) (g : NamedGraph) (fault : LoadFault) → IsGraphOfR bytes g →
        IsFirstFault bytes fault → fault ≡ LoadFault.Memory }
{}
