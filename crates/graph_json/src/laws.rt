//! Laws of graph files, each the contract of a public function that does nothing.
ghost use Rattle.std.specs.Prelude.{◌≡◌, ℕ, List};
ghost use Rattle.resource_graph.specs.NamedGraph.{NamedGraph};
ghost use Rattle.graph_json.specs.FileGraph.{IsFileGraph};
ghost use Rattle.graph_json.specs.GraphText.{IsGraphText};
ghost use Rattle.graph_json.specs.WrittenGraph.{graph_text};

/// A law: bytes are a graph file of at most one graph.
pub fn a_graph_text_has_one_graph()
    ensures { (bytes : List ℕ) (g h : NamedGraph) → IsGraphText bytes g → IsGraphText bytes h → g ≡ h }
{}

/// A law: the graph of a graph file is one that a graph file can hold.
pub fn graphs_of_files_fit_files()
    ensures { (bytes : List ℕ) (g : NamedGraph) → IsGraphText bytes g → IsFileGraph g }
{}

/// A law: what is written of such a graph, and so of any graph of a graph file, is a graph file of that graph.
pub fn written_graphs_are_read_back()
    ensures written { (g : NamedGraph) → IsFileGraph g → IsGraphText (graph_text g) g }
    ensures again { (bytes : List ℕ) (g : NamedGraph) → IsGraphText bytes g → IsGraphText (graph_text g) g }
{}
