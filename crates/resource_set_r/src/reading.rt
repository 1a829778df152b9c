//! A resource set from the bytes of R.
ghost use Rattle.std.specs.Prelude.{◌≡◌, ℕ, List, Ok, Some, length, IfOk, IfErr, IsSome, MatchResult};
ghost use Rattle.serde_json.specs.Data.{Data};
ghost use Rattle.serde_json.specs.Find.{as_object};
ghost use Rattle.json_whole.specs.Values.{view};
ghost use Rattle.json_whole.specs.Whole.{value_of};
ghost use Rattle.flux_defs.specs.declared.claims.Job.{Job};
ghost use Rattle.idset_text.specs.Idsets.{ids_of};
ghost use Rattle.resource_graph.specs.NamedGraph.{NamedGraph};
ghost use Rattle.resource_set_r.specs.ReadBack.{CanBeRead, IsOfJob};
ghost use Rattle.resource_set_r.specs.WrittenR.{r_text};
ghost use Rattle.resource_set_r.specs.Misreads.{IsResultOf};
ghost use Rattle.resource_set_r.specs.ReadRows.{execution_of, ranges_in};
ghost use Rattle.resource_set_r.specs.ReadR.{seconds_of, set_with, IsSetOf, IsErrorOf, IsToldAs, IsRText, IsFirstFault};

use crate::faults::{FieldPath, Misread, RFault, ReadError};
use crate::fields::{execution_of, field_path, second_or_zero};
use crate::hosts::{hosts_in, id_count};
use crate::ranks::{ranges_in, repeated_rank, rows_in};
use crate::sets_read::{RRow, RSet};
use flux_defs::List;
use json::Value;
use json_fields::Misfit;
use json_whole::{Room, ValueFault, read_bytes};
use std::alloc::Global;

/// The start and the end of an `execution`.
fn seconds_of(execution: &Value) -> Result<(u64, u64), Misread>
    requires { IsSome (as_object (view execution.now)) }
    ensures { result ≡ seconds_of (view execution.now) }
{
    let start = second_or_zero(execution, "starttime", FieldPath::Starttime)?;
    let end = second_or_zero(execution, "expiration", FieldPath::Expiration)?;
    Ok((start, end))
}

/// What is read behind these rows, which have so many ranks.
fn set_with(
    alloc: Global,
    rows: List<RRow>,
    ranks: u128,
    execution: &Value,
) -> Result<RSet, ReadError>
    requires object { IsSome (as_object (view execution.now)) }
    requires ranks { ranks ≡ length (ids_of (ranges_in rows)) }
    ensures { IsResultOf result (set_with rows (view execution.now)) }
{
    let hosts = match hosts_in(alloc, ranks, execution) {
        Ok(hosts) => hosts,
        Err(fault) => return Err(fault),
    };
    match seconds_of(execution) {
        Ok((start, end)) => Ok(RSet {
            rows,
            hosts,
            start,
            end,
        }),
        Err(misread) => Err(ReadError::Misread(misread)),
    }
}

/// The set of an `execution`.
fn set_in(alloc: Global, execution: &Value) -> Result<RSet, ReadError>
    requires { IsSome (as_object (view execution.now)) }
    ensures set { IfOk result (λ set. (d : Data) → execution_of d ≡ Ok (view execution.now) → IsSetOf d set) }
    ensures error { IfErr result (λ e. (d : Data) → execution_of d ≡ Ok (view execution.now) → IsErrorOf d e) }
{
    let rows = match rows_in(alloc, execution) {
        Ok(rows) => rows,
        Err(fault) => return Err(fault),
    };
    let mut ranges = match ranges_in(alloc, rows.items()) {
        Ok(ranges) => ranges,
        Err(_) => return Err(ReadError::Memory),
    };
    let ranks = id_count(ranges.as_slice());
    match repeated_rank(&mut ranges) {
        Some(rank) => Err(ReadError::Misread(Misread::RepeatedRank { rank })),
        None => set_with(alloc, rows, ranks, execution),
    }
}

/// The set that a value is.
fn set_of(alloc: Global, value: &Value) -> Result<RSet, ReadError>
    ensures set { IfOk result (IsSetOf (view value.now)) }
    ensures error { IfErr result (IsErrorOf (view value.now)) }
{
    match execution_of(value) {
        Ok(execution) => set_in(alloc, execution),
        Err(misread) => Err(ReadError::Misread(misread)),
    }
}

/// The fault of a misread.
fn fault_of(alloc: Global, misread: Misread) -> RFault
    ensures { IsToldAs misread result }
{
    match misread {
        Misread::Field(Misfit { field, fault }) => match field_path(alloc, field) {
            Ok(path) => RFault::Field { path, fault },
            Err(_) => RFault::Memory,
        },
        Misread::Version => RFault::Version,
        Misread::Idset { field } => match field_path(alloc, field) {
            Ok(path) => RFault::Idset { path },
            Err(_) => RFault::Memory,
        },
        Misread::Hosts => RFault::Hosts,
        Misread::RepeatedRank { rank } => RFault::RepeatedRank { rank },
    }
}

/// The resource set that a value is, as `read_r` reads it of the bytes of such a value.
pub fn read_r_value(alloc: Global, value: &Value) -> Result<RSet, RFault>
    ensures set { IfOk result (IsSetOf (view value.now)) }
    ensures fault { IfErr result (λ fault. (bytes : List ℕ) → value_of bytes ≡ Some (view value.now) →
        IsFirstFault bytes fault) }
{
    match set_of(alloc, value) {
        Ok(set) => Ok(set),
        Err(ReadError::Misread(misread)) => Err(fault_of(alloc, misread)),
        Err(ReadError::Memory) => Err(RFault::Memory),
    }
}

/// What the bytes are read as.
fn read(alloc: Global, bytes: &[u8]) -> Result<RSet, RFault>
    ensures set { IfOk result (IsRText bytes.now) }
    ensures fault { IfErr result (IsFirstFault bytes.now) }
{
    let mut room = Room::new(alloc);
    match read_bytes(alloc, bytes, &mut room) {
        Ok(value) => read_r_value(alloc, &value),
        Err(ValueFault::NotJson) => Err(RFault::NotJson),
        Err(ValueFault::Memory) => Err(RFault::Memory),
    }
}

/// The resource set of the bytes of R (RFC 20, version 1). Keys that it doesn't know are passed over; `core`, `gpu` and
/// `nodelist` count as empty where they are absent, and `starttime` and `expiration` as 0. The fault is the first that
/// holds of: the text, `version`, `execution`, the elements of `R_lite` in order with `rank`, `core` and `gpu` of each,
/// a rank that two items have, `nodelist`, the number of hosts, `starttime`, `expiration`.
pub fn read_r(alloc: Global, bytes: &[u8]) -> Result<RSet, RFault>
    ensures set { IfOk result (IsRText bytes.now) }
    ensures fault { IfErr result (IsFirstFault bytes.now) }

    // What `write_r` wrote of a job is read as the job's ranks, cores, gpus, hosts, start and end, unless memory runs
    // out.
    ensures again { (g : NamedGraph) (job : Job) → bytes.now ≡ r_text g job →
        CanBeRead g job → MatchResult result (IsOfJob g job) (λ fault. fault ≡ RFault.Memory) }
{
    read(alloc, bytes)
}
