//! What the words after the program's name ask for.
ghost use Rattle.std.specs.Prelude.{◌≡◌, ℕ, List, [], IfOk, IsTrue, MatchOption, ◌↔◌, map, option_map, string_bytes};
ghost use Rattle.prune_filters.specs.declared.rules.Rule.{Rule};
ghost use Rattle.prune_filters.specs.Filters.{AreRulesOf};
ghost use Rattle.fluxion_lines.specs.declared.commands.Form.{Form};
ghost use Rattle.command_words.specs.Values.{values_held};
ghost use Rattle.asked_calls.specs.Calls.{Served, Call, IsHorizon, IsHorizonOf, AreFiltersOf, form_word, IsFormOf};
ghost use Rattle.asked_calls.specs.Calls.{IsServing, IsCommandCount, IsInForm, IsCallOf, only_name, served_held};
ghost use Rattle.asked_calls.specs.Calls.{call_held};

use command_words::{WordValues, as_texts, read_words};
use flux_defs::{LATEST_HORIZON, List, Text};
use fluxion_lines::Form;
use load_script::MOST_COMMANDS;
use prune_filters::{FilterFault, Rules};
use std::alloc::{AllocError, Global};
use text_forms::number_in;

/// The horizon without an option, in seconds: ten years of 365 days.
const HORIZON: u64 = 315_360_000;

/// How lines are to be answered.
#[derive(Debug, Drop)]
pub struct Serving {
    /// The name of the graph file.
    pub name: String,
    /// The second at which time ends.
    pub horizon: u64,
    /// Which totals are kept.
    pub rules: Rules,
    /// How the jobspecs are written.
    pub form: Form,
}

/// What the words ask for.
#[derive(Debug, Drop)]
pub enum Asked {
    /// To answer the lines of the input.
    Serve(Serving),
    /// To write the graph of the file of this name.
    Print(String),
    /// To play the load of so many commands, and to write its counts.
    Load(u64),
}

/// The horizon that a word is: a number of seconds from 1 to 2^40.
fn horizon_in(word: &str) -> Option<u64>
    ensures { MatchOption result ((horizon : ℕ) → IsHorizon word.now horizon → ⊥) (IsHorizon word.now) }
{
    let Some(horizon) = number_in(word.as_bytes()) else {
        return None;
    };
    if horizon < 1 || horizon > LATEST_HORIZON {
        return None;
    }
    Some(horizon)
}

/// The horizon of `--horizon`, or without it.
fn horizon_of(word: Option<&str>) -> Option<u64>
    ensures { let given = option_map (λ text. text.now) word.entry in
        MatchOption result ((horizon : ℕ) → IsHorizonOf given horizon → ⊥) (IsHorizonOf given) }
{
    match word {
        None => Some(HORIZON),
        Some(word) => horizon_in(word),
    }
}

/// The form that a word names.
fn form_in(word: &str) -> Option<Form>
    ensures { MatchOption result ((form : Form) → word.now ≡ form_word form → ⊥) (λ form. word.now ≡ form_word form) }
{
    if word == "v1" {
        return Some(Form::V1);
    }
    if word == "rfc14" {
        return Some(Form::Rfc14);
    }
    None
}

/// The form of `--jobspec`, or without it.
fn form_of(word: Option<&str>) -> Option<Form>
    ensures { let given = option_map (λ text. text.now) word.entry in
        MatchOption result ((form : Form) → IsFormOf given form → ⊥) (IsFormOf given) }
{
    match word {
        None => Some(Form::Rfc14),
        Some(word) => form_in(word),
    }
}

/// The rules of a text; none, where it has another form.
fn rules_in(alloc: Global, text: &str) -> Result<Option<Rules>, AllocError>
    ensures { IfOk result (λ read. MatchOption read ((rules : List Rule) → AreRulesOf text.now rules → ⊥)
        (AreRulesOf text.now)) }
{
    match Rules::read(alloc, text.as_bytes()) {
        Ok(rules) => Ok(Some(rules)),
        Err(FilterFault::Form { .. }) => Ok(None),
        Err(FilterFault::Memory) => Err(AllocError),
    }
}

/// The rules of `--filters`, or without it.
fn rules_of(alloc: Global, list: Option<&str>) -> Result<Option<Rules>, AllocError>
    ensures { let given = option_map (λ text. text.now) list.entry in
        IfOk result (λ read. MatchOption read ((rules : List Rule) → AreFiltersOf given rules → ⊥)
        (AreFiltersOf given)) }
{
    match list {
        None => rules_in(alloc, "ALL:core"),
        Some(list) => rules_in(alloc, list),
    }
}

/// How the values ask to serve.
fn serving_of(alloc: Global, values: WordValues) -> Result<Option<Serving>, AllocError>
    ensures { IfOk result (λ read. MatchOption read ((served : Served) → IsServing (values_held values.entry) served →
        ⊥)
        (λ serving. IsServing (values_held values.entry) (served_held serving))) }
{
    let Some(horizon) = horizon_of(values.horizon) else {
        return Ok(None);
    };
    let Some(form) = form_of(values.jobspec) else {
        return Ok(None);
    };
    let Some(rules) = rules_of(alloc, values.filters)? else {
        return Ok(None);
    };
    Ok(Some(Serving {
        name: String::from_str(alloc, values.graph)?,
        horizon,
        rules,
        form,
    }))
}

/// Whether no option has a value.
fn is_only_name(values: &WordValues) -> bool
    ensures { IsTrue result ↔ (values_held values.now ≡ only_name values.now.graph.now) }
{
    values.horizon.is_none() && values.filters.is_none() && values.jobspec.is_none()
}

/// How many commands a word says that a load has: from 1 to 20,000.
fn command_count_in(word: &str) -> Option<u64>
    ensures { MatchOption result ((commands : ℕ) → IsCommandCount word.now commands → ⊥) (IsCommandCount word.now) }
{
    let Some(commands) = number_in(word.as_bytes()) else {
        return None;
    };
    if commands < 1 || commands > MOST_COMMANDS {
        return None;
    }
    Some(commands)
}

/// What the words of texts ask for.
fn asked_by(alloc: Global, words: &[String]) -> Result<Option<Asked>, AllocError>
    ensures { IfOk result (λ read. MatchOption read ((call : Call) → IsInForm (map string_bytes words.now) call → ⊥)
        (λ asked. IsInForm (map string_bytes words.now) (call_held asked))) }
{
    let Some((command, behind)) = words.split_first() else {
        return Ok(None);
    };
    let Some(values) = read_words(alloc, behind)? else {
        return Ok(None);
    };
    if command.as_str() == "serve" {
        return match serving_of(alloc, values)? {
            Some(serving) => Ok(Some(Asked::Serve(serving))),
            None => Ok(None),
        };
    }
    if command.as_str() == "graph" && is_only_name(&values) {
        let name = String::from_str(alloc, values.graph)?;
        return Ok(Some(Asked::Print(name)));
    }
    if command.as_str() == "load" && is_only_name(&values) {
        return match command_count_in(values.graph) {
            Some(commands) => Ok(Some(Asked::Load(commands))),
            None => Ok(None),
        };
    }
    Ok(None)
}

/// How `serve` without an option answers lines; its graph has no name.
///
/// # Errors
/// No memory is left.
pub fn plain_serving(alloc: Global) -> Result<Serving, AllocError>
    ensures { IfOk result (λ serving. IsServing (only_name []) (served_held serving)) }
{
    let Some(rules) = rules_of(alloc, None)? else {
        unreachable!()
    };
    Ok(Serving {
        name: String::new(alloc),
        horizon: HORIZON,
        rules,
        form: Form::Rfc14,
    })
}

/// What the words ask for; nothing, where they are none of the forms.
///
/// # Errors
/// No memory is left.
pub fn read_call(alloc: Global, words: &List<Text>) -> Result<Option<Asked>, AllocError>
    ensures { IfOk result (λ read. MatchOption read ((call : Call) → IsCallOf words.now call → ⊥)
        (λ asked. IsCallOf words.now (call_held asked))) }
{
    match as_texts(alloc, words)? {
        Some(texts) => asked_by(alloc, texts.as_slice()),
        None => Ok(None),
    }
}
