//! Laws of what the claims of jobs amount to at the vertices of a graph, each the contract of a public function that
//! does nothing.
#![tactic(auto)]

ghost use Rattle.book_laws.specs.TotalLaws.{TotalsAddUp, ClosedHasNone, PartsHaveRoom};

/// Where neither a vertex nor one above it is held, the total of a kind there and what live jobs have of the kind at
/// the vertex and below it add up to its capacity.
pub fn totals_add_up()
    ensures { TotalsAddUp }
{}

/// A vertex that is held, or below a held one, has a total of 0 of each kind.
pub fn closed_has_none()
    ensures { ClosedHasNone }
{}

/// What live jobs have of a kind at a vertex and below it never exceeds its capacity there.
pub fn parts_have_room()
    ensures { PartsHaveRoom }
{}
