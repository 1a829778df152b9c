//! Why something was not made from its text.
use fluxion_lines::InputFault;
use graph_json::ReadFault;
use prune_filters::FilterFault;
use std::alloc::{AllocError, AllocFailed};

/// Why a graph, filter rules or an input were not read.
#[derive(Debug, Drop)]
pub enum Unmade {
    Graph(ReadFault),
    Rules(FilterFault),
    Input(InputFault),
    /// The input has no line, or another one than is wanted.
    Line,
    /// No memory is left.
    Memory,
}

impl From<ReadFault> for Unmade {
    ghost use Rattle.std.specs.Prelude.{◌≡◌};
    ghost use Rattle.history_scenes.specs.declared.unmade.Unmade.TheVariants.{Graph};

    ghost from_gives = { λ fault e. e ≡ Graph fault };

    fn from(fault: ReadFault) -> Unmade {
        Unmade::Graph(fault)
    }
}

impl From<FilterFault> for Unmade {
    ghost use Rattle.std.specs.Prelude.{◌≡◌};
    ghost use Rattle.history_scenes.specs.declared.unmade.Unmade.TheVariants.{Rules};

    ghost from_gives = { λ fault e. e ≡ Rules fault };

    fn from(fault: FilterFault) -> Unmade {
        Unmade::Rules(fault)
    }
}

impl From<InputFault> for Unmade {
    ghost use Rattle.std.specs.Prelude.{◌≡◌};
    ghost use Rattle.history_scenes.specs.declared.unmade.Unmade.TheVariants.{Input};

    ghost from_gives = { λ fault e. e ≡ Input fault };

    fn from(fault: InputFault) -> Unmade {
        Unmade::Input(fault)
    }
}

impl From<AllocError> for Unmade {
    ghost use Rattle.std.specs.Prelude.{◌≡◌};
    ghost use Rattle.history_scenes.specs.declared.unmade.Unmade.TheVariants.{Memory};

    ghost from_gives = { λ _ e. e ≡ Memory };

    fn from(_: AllocError) -> Unmade {
        Unmade::Memory
    }
}

impl<T: Drop> From<AllocFailed<T>> for Unmade {
    ghost use Rattle.std.specs.Prelude.{◌≡◌};
    ghost use Rattle.history_scenes.specs.declared.unmade.Unmade.TheVariants.{Memory};

    ghost from_gives = { λ _ e. e ≡ Memory };

    fn from(_: AllocFailed<T>) -> Unmade {
        Unmade::Memory
    }
}
