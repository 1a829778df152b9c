//! Laws of the definitions, each the contract of a public function that does nothing.
#![tactic(auto)]

ghost use Rattle.flux_laws.specs.Laws.{LowestIsDetermined, ReplyIsDetermined, LowestFits, MultiplyingIsScaling};
ghost use Rattle.flux_laws.specs.Laws.{FewerCopiesFit, GroupsAreAside, PiecesAreAside, FitsAreSeparate};

/// At most one list of claims is lowest-first.
pub fn lowest_is_determined()
    ensures { LowestIsDetermined }
{}

/// At most one reply answers a command.
pub fn reply_is_determined()
    ensures { ReplyIsDetermined }
{}

/// What is lowest-first fits.
pub fn lowest_fits()
    ensures { LowestFits }
{}

/// The multiplier of a fit is scaling.
pub fn multiplying_is_scaling()
    ensures { MultiplyingIsScaling }
{}

/// A smaller multiple fits too.
pub fn fewer_copies_fit()
    ensures { FewerCopiesFit }
{}

/// The claims of two needs of a list are on vertices of which none is at or below another.
pub fn groups_are_aside()
    ensures { GroupsAreAside }
{}

/// So are those of two vertices of one need.
pub fn pieces_are_aside()
    ensures { PiecesAreAside }
{}

/// The claims of one fit are separate.
pub fn fits_are_separate()
    ensures { FitsAreSeparate }
{}
