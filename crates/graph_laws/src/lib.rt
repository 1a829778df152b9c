//! Laws of containment, each the contract of a public function that does nothing.
#![tactic(auto)]

ghost use Rattle.graph_laws.specs.ContainmentLaws.{ParentsStandFirst, IsTransitive, IsChain, FollowsWithoutGap};

/// In a valid graph's preorder parents stand before their children.
pub fn parents_stand_first()
    ensures { ParentsStandFirst }
{}

/// What is at or below a vertex that is at or below a third is at or below that one.
pub fn containment_is_transitive()
    ensures { IsTransitive }
{}

/// What a vertex is at or below is a chain: of two such vertices one is at or below the other.
pub fn what_is_above_is_a_chain()
    ensures { IsChain }
{}

/// The vertices at or below a vertex follow it without a gap.
pub fn what_is_below_follows()
    ensures { FollowsWithoutGap }
{}
