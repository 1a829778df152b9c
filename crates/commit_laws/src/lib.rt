//! Why a candidate that nothing overtook may be committed: its verdict yields the reply of a fresh decision. Each law
//! is the contract of a public function that does nothing.
#![tactic(auto)]

ghost use Rattle.commit_laws.specs.CommitLaws.{CommitIsFresh, TakenIsBlocked, CauseIsDetermined};

/// A commit of a candidate that nothing overtook is a fresh decision.
pub fn commit_is_fresh()
    ensures { CommitIsFresh }
{}

/// A claim that isn't available any more has an entry that stands in its way, and a first one.
pub fn taken_is_blocked()
    ensures { TakenIsBlocked }
{}

/// A candidate is overtaken by one cause at most.
pub fn cause_is_determined()
    ensures { CauseIsDetermined }
{}
