//! Why bytes are no resource set.
use flux_defs::Text;
use json_fields::Misfit;
use json_whole::FieldFault;
use std::alloc::AllocError;

/// Why bytes are no resource set: the first of these that holds, in the order in which the keys are looked at.
#[derive(Debug, Drop)]
pub enum RFault {
    /// The bytes are no JSON text (RFC 8259).
    NotJson,
    /// The field at the path is missing or breaks the rule of its key. The path begins at the whole text, as
    /// `execution.R_lite[0].rank`; that of the whole text is `.`.
    Field { path: Text, fault: FieldFault },
    /// The version is a whole number other than 1.
    Version,
    /// The text at the path is no idset.
    Idset { path: Text },
    /// There are hosts, and not as many as there are ranks.
    Hosts,
    /// The least rank that two items have.
    RepeatedRank { rank: u32 },
    /// Want of memory.
    Memory,
}

/// A field of the value.
#[derive(Clone, Copy, PartialEq, Eq)]
pub(crate) enum FieldPath {
    Whole,
    Version,
    Execution,
    RLite,
    Row { at: u64 },
    Rank { at: u64 },
    Children { at: u64 },
    Core { at: u64 },
    Gpu { at: u64 },
    Nodelist,
    Host { at: u64 },
    Starttime,
    Expiration,
}

/// A field that breaks the rule of its key.
pub(crate) type FieldMisfit = Misfit<FieldPath, FieldFault>;

/// What is wrong with a value.
#[derive(Clone, Copy, PartialEq, Eq)]
pub(crate) enum Misread {
    Field(FieldMisfit),
    Version,
    Idset { field: FieldPath },
    Hosts,
    RepeatedRank { rank: u32 },
}

/// Why a value isn't read.
#[derive(Clone, Copy, PartialEq, Eq)]
pub(crate) enum ReadError {
    Misread(Misread),
    Memory,
}
