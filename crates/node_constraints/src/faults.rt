//! Why a value is no constraint.
use flux_defs::Text;
use std::alloc::AllocError;

/// Why a value is no constraint.
#[derive(Debug, Drop)]
pub enum ConstraintFault {
    /// The constraint at the path, as `attributes.system.constraints.and[0]`, is the innermost one around the first
    /// fault: it is no object, has a key that no constraint has, or has at a key no list of what stands there.
    Form { path: Text },
    /// Want of memory.
    Memory,
}

impl From<AllocError> for ConstraintFault {
    ghost use Rattle.std.specs.Prelude.{◌≡◌};
    ghost use Rattle.node_constraints.specs.declared.faults.ConstraintFault.TheVariants.{Memory};

    ghost from_gives = { λ _ e. e ≡ Memory };

    fn from(_: AllocError) -> ConstraintFault {
        ConstraintFault::Memory
    }
}
