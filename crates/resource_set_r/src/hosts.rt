//! The hosts of a resource set.
ghost use Rattle.std.specs.Prelude.{◌≡◌, ◌++◌, ◌≤◌, ◌^◌, List, length, OnOk};
ghost use Rattle.json_whole.specs.Values.{view, items_view};
ghost use Rattle.idset_text.specs.Hostlists.{own_names, names_of};
ghost use Rattle.idset_text.specs.Idsets.{ids_between, ids_of};
ghost use Rattle.resource_set_r.specs.ReadRows.{ranges_in};
ghost use Rattle.resource_set_r.specs.declared.sets_read.RRow.{RRow};
ghost use Rattle.resource_set_r.specs.Misreads.{IsResultOf};
ghost use Rattle.resource_set_r.specs.ReadR.{host_value, hosts_from, hosts_fit, hosts_for, hosts_in};

use crate::faults::{FieldPath, Misread, ReadError};
use crate::fields::{list_of, text_value};
use flux_defs::List;
use idset_text::{Hosts, Range, TextFault, read_hostlist};
use json::Value;
use json_fields::Misfit;
use json_whole::{FieldFault, get};
use std::alloc::{AllocError, Global};

/// The hosts that the value with this index is.
fn host_value(alloc: Global, at: u64, value: &Value) -> Result<List<Hosts>, ReadError>
    ensures { IsResultOf result (host_value at (view value.now)) }
{
    let text = match text_value(value, FieldPath::Host { at }) {
        Ok(text) => text,
        Err(misread) => return Err(ReadError::Misread(misread)),
    };
    match read_hostlist(alloc, text.as_bytes()) {
        Ok(hosts) => Ok(hosts),
        Err(TextFault::Form { .. }) => Err(ReadError::Misread(Misread::Field(Misfit {
            field: FieldPath::Host { at },
            fault: FieldFault::Text,
        }))),
        Err(TextFault::Memory) => Err(ReadError::Memory),
    }
}

/// Adds hosts at the end.
fn add_hosts(all: &mut Vec<Hosts>, hosts: List<Hosts>) -> Result<(), AllocError>
    ensures { OnOk result (all.new.items ≡ all.old.items ++ hosts) }
{
    let mut more = hosts.into_vec();
    all.append(&mut more)
}

/// The hosts of a list.
fn hosts_from(alloc: Global, values: &[Value]) -> Result<List<Hosts>, ReadError>
    ensures { IsResultOf result (hosts_from 0 (items_view values.now)) }
{
    let mut all = Vec::new(alloc);
    'lists: for (at, value) in values.iter().enumerate() {
        let hosts = match host_value(alloc, at as u64, value) {
            Ok(hosts) => hosts,
            Err(fault) => return Err(fault),
        };
        match add_hosts(&mut all, hosts) {
            Ok(()) => {}
            Err(_) => return Err(ReadError::Memory),
        }
    }
    Ok(List::of_vec(all))
}

/// How many hosts these are.
fn count_of(hosts: &Hosts) -> u64
    ensures value { result ≡ length (own_names hosts.now) }
    ensures small { result ≤ 2 ^ 32 }
{
    match hosts {
        Hosts::One { .. } => 1,
        Hosts::Many { lo, hi, .. } => (u64::from(*hi) + 1).saturating_sub(u64::from(*lo)),
    }
}

/// How many hosts there are in all.
fn host_count(hosts: &[Hosts]) -> u128
    ensures { result ≡ length (names_of hosts.now) }
{
    let mut count = 0;
    'hosts: for item in hosts {
        count += u128::from(count_of(item));
    }
    count
}

/// How many ids a range has.
fn span_of(range: &Range) -> u64
    ensures value { result ≡ length (ids_between range.now) }
    ensures small { result ≤ 2 ^ 32 }
{
    (u64::from(range.hi) + 1).saturating_sub(u64::from(range.lo))
}

/// How many ids the ranges have in all, an id counted as often as ranges have it. No range is expanded.
pub fn id_count(ranges: &[Range]) -> u128
    ensures { result ≡ length (ids_of ranges.now) }
{
    let mut count = 0;
    'spans: for range in ranges {
        count += u128::from(span_of(range));
    }
    count
}

/// Whether a list that isn't empty has a host for each of so many ranks.
fn hosts_fit(values: &[Value], ranks: u128, hosts: &[Hosts]) -> bool
    ensures { (rows : List RRow) →
        ranks ≡ length (ids_of (ranges_in rows)) → result ≡ hosts_fit (items_view values.now) rows hosts.now }
{
    values.is_empty() || host_count(hosts) == ranks
}

/// The hosts that a list has for so many ranks.
fn hosts_for(alloc: Global, ranks: u128, values: &[Value]) -> Result<List<Hosts>, ReadError>
    ensures { (rows : List RRow) → ranks ≡ length (ids_of (ranges_in rows)) →
        IsResultOf result (hosts_for rows (items_view values.now)) }
{
    let hosts = match hosts_from(alloc, values) {
        Ok(hosts) => hosts,
        Err(fault) => return Err(fault),
    };
    if hosts_fit(values, ranks, hosts.items()) {
        Ok(hosts)
    } else {
        Err(ReadError::Misread(Misread::Hosts))
    }
}

/// The hosts of so many ranks.
pub(crate) fn hosts_in(
    alloc: Global,
    ranks: u128,
    execution: &Value,
) -> Result<List<Hosts>, ReadError>
    ensures { (rows : List RRow) → ranks ≡ length (ids_of (ranges_in rows)) →
        IsResultOf result (hosts_in rows (view execution.now)) }
{
    let Some(found) = get(execution, "nodelist") else {
        return hosts_for(alloc, ranks, &[]);
    };
    match list_of(found, FieldPath::Nodelist) {
        Ok(values) => hosts_for(alloc, ranks, values.as_slice()),
        Err(misread) => Err(ReadError::Misread(misread)),
    }
}
