//! Worked examples of the definitions, each the contract of a public function that does nothing.
#![tactic(auto)]

ghost use Rattle.flux_examples.specs.Examples.{TwoSlotsAreLowest, ThreeSlotsNeverFit, WholeNodeWaits};
ghost use Rattle.flux_examples.specs.Examples.{WholeNodeFitsLater, BarredBelowIsNotHeld};

/// Two slots of three cores are served by the first three cores of each node.
pub fn two_slots_of_three_cores()
    ensures { TwoSlotsAreLowest }
{}

/// Three such slots fit nowhere.
pub fn three_slots_of_three_cores()
    ensures { ThreeSlotsNeverFit }
{}

/// A node of which a job holds a core can't be had whole while the job is live.
pub fn whole_node_beside_a_job()
    ensures { WholeNodeWaits }
{}

/// After the job it can.
pub fn whole_node_after_a_job()
    ensures { WholeNodeFitsLater }
{}

/// What has a barred node below it can't be held.
pub fn hold_over_a_barred_node()
    ensures { BarredBelowIsNotHeld }
{}
