//! Laws of pruning, each the contract of a public function that does nothing.
#![tactic(auto)]

ghost use Rattle.prune_laws.specs.PruneLaws.{DemandsAreFree, TooLittleServesNone, TooLittleFitsNone};

/// What a vertex can serve is free, kind by kind, at it and below it.
pub fn demands_are_free()
    ensures { DemandsAreFree }
{}

/// Where a vertex has too little of some kind for one of a need, no vertex at or below it can serve any of the need.
pub fn too_little_serves_none()
    ensures { TooLittleServesNone }
{}

/// Where the root has too little of some kind for needs in full, no claims fit them.
pub fn too_little_fits_none()
    ensures { TooLittleFitsNone }
{}
