//! The rules of a text.
ghost use Rattle.std.specs.Prelude.{◌≡◌, ◌↔◌, IsTrue, IfOk, IfErr, MatchOption};
ghost use Rattle.prune_filters.specs.Filters.{Spells, IsRule, AreRulesOf, IsFaultOf, IsKept, IsCounted};

use crate::items::first_item;
use flux_defs::{List, MOST_TYPE_BYTES, Text};
use std::alloc::{AllocError, Global};
use std::marker::Model;
use text_forms::{cut_at, is_name, push};
use thiserror::Error;

/// At each vertex of the type `high`, a total of the type `low` is kept; `ALL` stands for every type.
#[derive(Debug, Drop)]
pub struct Rule {
    pub high: Text,
    pub low: Text,
}

/// Why a text isn't read as rules.
#[derive(Clone, Copy, Debug, Drop, PartialEq, Eq, Error)]
pub enum FilterFault {
    /// The item that begins at byte `at` is the first that is no rule.
    #[error("the item at byte {at} is no filter rule")]
    Form { at: usize },
    /// No memory is left.
    #[error("out of memory")]
    Memory,
}

impl From<AllocError> for FilterFault {
    ghost use Rattle.std.specs.Prelude.{◌≡◌};
    ghost use Rattle.prune_filters.specs.declared.rules.FilterFault.TheVariants.{Memory};

    ghost from_gives = { λ _ e. e ≡ Memory };

    fn from(_: AllocError) -> FilterFault {
        FilterFault::Memory
    }
}

/// Filter rules, in their order (flux-sched's `--prune-filters`). Contracts see them as a list.
#[derive(Debug, Drop)]
pub struct Rules {
    rules: List<Rule>,
}

impl Model for Rules {
    ghost use Rattle.std.specs.Prelude.{List};
    ghost use Rattle.prune_filters.specs.declared.rules.Rule.{Rule};

    ghost Value = { List Rule };

    ghost view = { λ it. it.rules };
}

impl Rules {
    /// The rules of a text: items `HIGH:LOW` with commas between, each of the two a type's name.
    pub fn read(alloc: Global, text: &[u8]) -> Result<Rules, FilterFault>
        ensures read { IfOk result (λ rules. AreRulesOf text.now rules) }
        ensures fault { IfErr result (IsFaultOf text.now) }
    {
        let mut rules = Vec::new(alloc);
        let mut rest = text;
        let mut at = 0;
        'items: loop {
            let (item, more) = first_item(rest);
            let Some(rule) = read_rule(alloc, item)? else {
                return Err(FilterFault::Form { at });
            };
            push(&mut rules, rule)?;
            let Some(next) = more else {
                return Ok(Rules {
                    rules: List::of_vec(rules),
                });
            };
            at += item.len() + 1;
            rest = next;
        }
    }

    /// Whether the rules keep totals of this type, at whichever vertices.
    pub fn counts(&self, low: &[u8]) -> bool
        ensures { IsTrue result ↔ IsCounted self.now low.now }
    {
        self.rules
            .items()
            .iter()
            .any(|rule| rule.low.bytes() == low)
    }

    /// Whether the rules keep a total of the lower type at vertices of the higher one.
    pub fn keeps(&self, high: &[u8], low: &[u8]) -> bool
        ensures { IsTrue result ↔ IsKept self.now high.now low.now }
    {
        self.rules.items().iter().any(|rule| {
            rule.low.bytes() == low
                && (rule.high.bytes() == high || rule.high.bytes() == b"ALL".as_slice())
        })
    }
}

/// The rule that an item spells, if it spells one.
fn read_rule(alloc: Global, item: &[u8]) -> Result<Option<Rule>, AllocError>
    ensures { IfOk result (λ read. MatchOption read (IsRule item.now → ⊥) (Spells item.now)) }
{
    let Some((high, low)) = cut_at(item, b':') else {
        return Ok(None);
    };
    if !is_name(high, MOST_TYPE_BYTES) {
        return Ok(None);
    }
    if !is_name(low, MOST_TYPE_BYTES) {
        return Ok(None);
    }
    Ok(Some(Rule {
        high: Text::of(alloc, high)?,
        low: Text::of(alloc, low)?,
    }))
}
