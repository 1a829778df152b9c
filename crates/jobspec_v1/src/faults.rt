//! Why bytes are no jobspec.
ghost use Rattle.std.specs.Prelude.{◌≡◌, ◌⊎◌};
ghost use Rattle.jobspec_v1.specs.Faults.{told_behind};

use flux_defs::Text;
use json_fields::joined_path;
use json_whole::FieldFault;
use need_shape::ShapeFault;
use std::alloc::{AllocError, AllocFailed, Global};

/// Why bytes are no jobspec: the first of these that holds, in the order in which faults are told. A path begins at the
/// whole text, as `resources[0].with[1].count`; that of the whole text is `.`, and a key that is none of a request
/// vertex is written `*`.
#[derive(Debug, Drop)]
pub enum SpecFault {
    /// The bytes are no JSON text (RFC 8259).
    NotJson,
    /// The field at the path is missing, or breaks the rule of its key.
    Field { path: Text, fault: FieldFault },
    /// The version is not 1.
    Version,
    /// The request has none of the four forms of RFC 25.
    Form,
    /// The label at the path is empty, or that of an earlier slot.
    Label { path: Text },
    /// The task at the path breaks a rule of tasks; with the path `tasks` there is more than one.
    Task { path: Text },
    /// The request vertices are no needs.
    Shape(ShapeFault),
    /// The constraint at the path is none (RFC 31).
    Constraint { path: Text },
    /// What stands at the path is in RFC 14, but is not read.
    NotInProfile { path: Text },
    /// Want of memory.
    Memory,
}

impl From<AllocError> for SpecFault {
    ghost use Rattle.std.specs.Prelude.{◌≡◌};
    ghost use Rattle.jobspec_v1.specs.declared.faults.SpecFault.TheVariants.{Memory};

    ghost from_gives = { λ _ e. e ≡ Memory };

    fn from(_: AllocError) -> SpecFault {
        SpecFault::Memory
    }
}

impl<T: Drop> From<AllocFailed<T>> for SpecFault {
    ghost use Rattle.std.specs.Prelude.{◌≡◌};
    ghost use Rattle.jobspec_v1.specs.declared.faults.SpecFault.TheVariants.{Memory};

    ghost from_gives = { λ _ e. e ≡ Memory };

    fn from(_: AllocFailed<T>) -> SpecFault {
        SpecFault::Memory
    }
}

/// A fault that was told from a place on, told from where this front of its path begins.
pub(crate) fn behind(alloc: Global, front: &[u8], fault: SpecFault) -> SpecFault
    ensures { (result ≡ SpecFault.Memory) ⊎ (result ≡ told_behind front.now fault) }
{
    match fault {
        SpecFault::Field { path, fault } => match joined_path(alloc, front, path.bytes()) {
            Ok(path) => SpecFault::Field { path, fault },
            Err(_) => SpecFault::Memory,
        },
        SpecFault::Label { path } => match joined_path(alloc, front, path.bytes()) {
            Ok(path) => SpecFault::Label { path },
            Err(_) => SpecFault::Memory,
        },
        SpecFault::NotInProfile { path } => match joined_path(alloc, front, path.bytes()) {
            Ok(path) => SpecFault::NotInProfile { path },
            Err(_) => SpecFault::Memory,
        },
        other => other,
    }
}

/// The fault of a field at a path.
pub fn field_at(alloc: Global, path: &[u8], fault: FieldFault) -> SpecFault
    ensures { (result ≡ SpecFault.Memory) ⊎ (result ≡ SpecFault.Field path.now fault) }
{
    match Text::of(alloc, path) {
        Ok(path) => SpecFault::Field { path, fault },
        Err(_) => SpecFault::Memory,
    }
}
