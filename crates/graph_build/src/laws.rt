//! Laws of graphs and the lists that they are built from, each the contract of a public function that does nothing.
ghost use Rattle.std.specs.Prelude.{◌≡◌, ℕ, List};
ghost use Rattle.resource_graph.specs.NamedGraph.{NamedGraph, IsWhole};
ghost use Rattle.graph_build.specs.Raw.{IsBuiltFrom, raw_graph, raw_names};
ghost use Rattle.graph_build.specs.Table.{IsFaultless};
ghost use Rattle.graph_build.specs.OwnList.{own_list};
ghost use Rattle.graph_build.specs.declared.raw.RawVertex.{RawVertex};

/// A law: a list of vertices has at most one graph.
pub fn a_list_has_one_graph()
    ensures { (kinds : List (List ℕ)) (raw : List RawVertex) (g h : NamedGraph) → IsBuiltFrom kinds raw g →
        IsBuiltFrom kinds raw h → g ≡ h }
{}

/// A law: a graph is built from its own vertices, and nothing is wrong with them.
pub fn a_graph_is_built_from_itself()
    ensures built { (g : NamedGraph) → IsWhole g → IsBuiltFrom g.resources.kinds (own_list g) g }
    ensures faultless { (g : NamedGraph) → IsWhole g →
        IsFaultless (raw_graph g.resources.kinds (own_list g)) (raw_names (own_list g)) }
{}
