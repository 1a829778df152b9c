//! Laws that a search for claims rests on, each the contract of a public function that does nothing.
//! `proofs/` has what a walk over the vertices keeps, and what the answers of a view say of claims.
#![tactic(auto)]

ghost use Rattle.match_laws.specs.MatchLaws.{MoreFits, NeedsFitAlone};

/// Where more is available, more fits.
pub fn more_fits()
    ensures { MoreFits }
{}

/// Each need of a list is looked for alone.
pub fn needs_fit_alone()
    ensures { NeedsFitAlone }
{}
