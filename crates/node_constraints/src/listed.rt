//! Hostlists that are asked for many names.
ghost use Rattle.std.specs.Prelude.{◌≡◌, ◌++◌, ◌↔◌, ℕ, [], true, IsTrue, IfOk, OnOk};
ghost use Rattle.std.specs.List.{list_any, flat_map, list_all};
ghost use Rattle.std.proofs.Props.{props};
ghost use Rattle.covered_numbers.specs.Covers.{is_covered};
ghost use Rattle.idset_text.specs.Hostlists.{names_of};
ghost use Rattle.text_table.specs.Tables.{with_texts};
ghost use Rattle.node_constraints.specs.Truth.{is_among};
ghost use Rattle.node_constraints.specs.Listed.{own_name, own_prefix, own_stretch, names_in, prefixes_in, stretches_in};
ghost use Rattle.node_constraints.specs.Listed.{is_small, are_small, code, IsNumber, IsNumbered};

use covered_numbers::{Covered, Stretch};
use flux_defs::List;
use idset_text::{Hosts, is_wide, number};
use std::alloc::{AllocError, Global};
use text_table::TextTable;

/// Hostlists: the names of single hosts, the prefixes of many, and the numbers of these.
#[derive(Drop)]
pub(crate) struct Listed {
    lists: List<List<Hosts>>,
    names: TextTable,
    prefixes: TextTable,
    covered: Covered,
    ghost named: { names ≡ with_texts [] (names_in lists) } by { Prim.hlevel props },
    ghost prefixed: { prefixes ≡ with_texts [] (prefixes_in lists) } by { Prim.hlevel props },
    ghost told: { (n : ℕ) → is_covered covered n ≡ is_covered (stretches_in prefixes lists) n },
    ghost small: { are_small lists ≡ true },
}

/// One number for a prefix, a width and a number.
fn code(at: usize, width: u32, number: u32) -> u128
    ensures { result ≡ code at width number }
{
    u128::from(at as u64) * (1 << 64) + u128::from(width) * (1 << 32) + u128::from(number)
}

/// Adds the name of each single host, and the prefix of all others.
fn add_texts(
    alloc: Global,
    names: &mut TextTable,
    prefixes: &mut TextTable,
    hosts: &[Hosts],
) -> Result<(), AllocError>
    ensures names { OnOk result (names.new ≡ with_texts names.old (flat_map own_name hosts.now)) }
    ensures prefixes { OnOk result (prefixes.new ≡ with_texts prefixes.old (flat_map own_prefix hosts.now)) }
{
    'each: for host in hosts {
        match host {
            Hosts::One { name } => {
                names.add(alloc, name.bytes())?;
            }
            Hosts::Many { prefix, .. } => {
                prefixes.add(alloc, prefix.bytes())?;
            }
        }
    }
    Ok(())
}

/// Adds the numbers of hosts.
fn add_stretches(
    prefixes: &TextTable,
    stretches: &mut Vec<Stretch>,
    hosts: &[Hosts],
) -> Result<(), AllocError>
    ensures added { OnOk result
        (stretches.new.items ≡ stretches.old.items ++ flat_map (own_stretch prefixes.now) hosts.now) }
    ensures small { OnOk result (list_all is_small hosts.now ≡ true) }
{
    'each: for host in hosts {
        if let Hosts::Many {
            prefix,
            lo,
            hi,
            width,
        } = host
        {
            let at = prefixes.index_of(prefix.bytes());
            stretches.push(Stretch {
                first: code(at, *width, *lo),
                last: code(at, *width, *hi),
            })?;
        }
    }
    Ok(())
}

/// The numbers of all hosts.
fn stretches_of(
    alloc: Global,
    prefixes: &TextTable,
    lists: &[List<Hosts>],
) -> Result<Vec<Stretch>, AllocError>
    ensures are { IfOk result (λ stretches. stretches.items ≡ stretches_in prefixes.now lists.now) }
    ensures small { IfOk result (λ _. are_small lists.now ≡ true) }
{
    let mut stretches = Vec::new(alloc);
    'lists: for hosts in lists {
        add_stretches(prefixes, &mut stretches, hosts.items())?;
    }
    Ok(stretches)
}

impl Listed {
    /// The hosts of these lists.
    pub(crate) fn of(alloc: Global, lists: List<List<Hosts>>) -> Result<Listed, AllocError>
        ensures { IfOk result (λ listed. listed.lists ≡ lists) }
    {
        let mut names = TextTable::new(alloc);
        let mut prefixes = TextTable::new(alloc);
        'lists: for hosts in lists.items() {
            add_texts(alloc, &mut names, &mut prefixes, hosts.items())?;
        }
        let stretches = stretches_of(alloc, &prefixes, lists.items())?;
        let covered = Covered::of(alloc, stretches)?;
        Ok(Listed {
            lists,
            names,
            prefixes,
            covered,
        })
    }

    /// Whether the digits, so written, are a number behind the prefix.
    fn has_number(&self, prefix: &[u8], digits: &[u8]) -> bool
        ensures { IsTrue result ↔ IsNumber self.now.prefixes self.now.covered prefix.now digits.now }
    {
        let Some(number) = number(digits) else {
            return false;
        };
        let Some(at) = self.prefixes.number_of(prefix) else {
            return false;
        };
        'widths: for wide in 0..digits.len() + 1 {
            let Ok(width) = u32::try_from(wide) else {
                return false;
            };
            if is_wide(wide, digits) && self.covered.has(code(at, width, number)) {
                return true;
            }
        }
        false
    }

    /// Whether the name is a prefix and a number behind it.
    fn has_numbered(&self, name: &[u8]) -> bool
        ensures { IsTrue result ↔ IsNumbered self.now.prefixes self.now.covered name.now }
    {
        'places: for place in 0..name.len() {
            if self.has_number(&name[..place], &name[place..]) {
                return true;
            }
        }
        false
    }

    /// Whether the name is one of the hosts of some list. It takes time by the name's length, and the logarithm of the
    /// hosts.
    pub(crate) fn has(&self, name: &[u8]) -> bool
        ensures { result ≡ list_any (λ hosts. is_among (names_of hosts) name.now) self.now.lists }
    {
        self.names.number_of(name).is_some() || self.has_numbered(name)
    }
}
