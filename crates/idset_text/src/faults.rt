//! Why a text isn't read.
use std::alloc::AllocError;
use thiserror::Error;

/// Why a text of ids or hosts isn't read.
#[derive(Clone, Copy, Debug, Drop, PartialEq, Eq, Error)]
pub enum TextFault {
    /// The item that begins at byte `at` is the first that breaks the grammar.
    #[error("the item at byte {at} is not in the grammar")]
    Form { at: usize },
    /// No memory is left.
    #[error("out of memory")]
    Memory,
}

impl From<AllocError> for TextFault {
    ghost use Rattle.std.specs.Prelude.{◌≡◌};
    ghost use Rattle.idset_text.specs.declared.faults.TextFault.TheVariants.{Memory};

    ghost from_gives = { λ _ e. e ≡ Memory };

    fn from(_: AllocError) -> TextFault {
        TextFault::Memory
    }
}
