//! The tree of the plain form of a text, read of the text itself: where a number stands, what the plain form has there
//! is built. Each list and object has room for what it holds and no more.
ghost use Rattle.std.specs.Prelude.{◌≡◌, ◌<◌, ◌≤◌, ◌++◌, [], ◌∷◌, List, length, take, drop, vec_len, Some};
ghost use Rattle.std.specs.Prelude.{IfOk, OnOk};
ghost use Rattle.json.specs.Json.{items, members, value, array, item, no_items, string};
ghost use Rattle.json.specs.Token as tok;
ghost use Rattle.json.specs.Value.{value_view, items_view, members_view};
ghost use Rattle.json_whole.specs.Run.{digit_count};
ghost use Rattle.json_whole.specs.PlainTokens.{number_as, plain_number, plain_tokens};

use crate::runs::{Form, digit_count, first_run, form_of, is_whole};
use json::{Reader, Token, Value};
use std::alloc::{AllocError, AllocFailed};

/// Why no tree was read.
#[derive(Clone, Copy, Debug, PartialEq, Eq)]
pub enum TreeFault {
    /// The plain form is no JSON text of so few levels.
    Other,
    /// No memory is left.
    Memory,
}

impl From<AllocError> for TreeFault {
    ghost use Rattle.std.specs.Prelude.{◌≡◌};
    ghost use Rattle.json_whole.specs.declared.parsing.TreeFault.TheVariants.{Memory};

    ghost from_gives = { λ _ e. e ≡ Memory };

    fn from(_: AllocError) -> TreeFault {
        TreeFault::Memory
    }
}

impl<T: Drop> From<AllocFailed<T>> for TreeFault {
    ghost use Rattle.std.specs.Prelude.{◌≡◌};
    ghost use Rattle.json_whole.specs.declared.parsing.TreeFault.TheVariants.{Memory};

    ghost from_gives = { λ _ e. e ≡ Memory };

    fn from(_: AllocFailed<T>) -> TreeFault {
        TreeFault::Memory
    }
}

/// The values of the lists and the members of the objects that are still read, those of an inner one behind those of
/// the outer ones.
#[derive(Drop)]
pub struct Unfinished<'a> {
    pub items: Vec<Value<'a>>,
    pub members: Vec<(&'a str, Value<'a>)>,
}

/// How the plain form writes a number of the text. Other where that is a list, which may not stand at depth 0, and
/// where the number is no whole run. Most numbers are digits alone.
#[tactic(auto, using(crate::proofs::PlainSteps::whole_written, crate::proofs::PlainSteps::form_written))]
pub fn number_form(number: &str, depth: usize) -> Result<Form, TreeFault>
    ensures tokens { IfOk result (λ form. number_as form number.now ≡ plain_number number.now) }
    ensures nests { IfOk result (λ form. form ≡ Form.Listed → 0 < depth) }
{
    if is_whole(number.as_bytes()) {
        return Ok(Form::Same);
    }
    let run = first_run(number.as_bytes());
    if run.len() != number.len() {
        return Err(TreeFault::Other);
    }
    match form_of(run) {
        Form::Listed if depth == 0 => Err(TreeFault::Other),
        form => Ok(form),
    }
}

/// The digits at the front of a number.
#[tactic(auto, using(crate::proofs::Numerals::digits_end))]
fn front_digits(number: &str) -> &str
    ensures { result.now ≡ take (digit_count number.now) number.now }
{
    &number[..digit_count(number.as_bytes())]
}

/// Takes what stands from a place on.
pub fn take_from<T: Drop>(list: &mut Vec<T>, from: usize) -> Result<Vec<T>, TreeFault>
    requires { from ≤ vec_len list.old }
    ensures kept { OnOk result (list.new.items ≡ take from list.old.items) }
    ensures taken { IfOk result (λ taken. taken.items ≡ drop from list.old.items) }
{
    let taken = list.split_off(from)?;
    Ok(taken)
}

/// A list of the one text.
fn list_of<'a>(text: &'a str, unfinished: &mut Unfinished<'a>) -> Result<Value<'a>, TreeFault>
    ensures is { IfOk result (λ v. value_view v ≡ array (item (string text.now) no_items)) }
    ensures items { OnOk result (unfinished.new.items.items ≡ unfinished.old.items.items) }
    ensures members { OnOk result (unfinished.new.members.items ≡ unfinished.old.members.items) }
{
    let from = unfinished.items.len();
    unfinished.items.push(Value::String(text))?;
    let list = take_from(&mut unfinished.items, from)?;
    Ok(Value::Array(list))
}

/// What the plain form has in the place of a number. Arrays may nest `depth` deep.
#[inline(always)]
fn read_number<'a>(
    number: &'a str,
    depth: usize,
    unfinished: &mut Unfinished<'a>,
) -> Result<Value<'a>, TreeFault>
    ensures ok { IfOk result
        (λ v. (rest : List tok.Token) → value depth (plain_number number.now ++ rest) ≡ Some (value_view v, rest)) }
    ensures items { OnOk result (unfinished.new.items.items ≡ unfinished.old.items.items) }
    ensures members { OnOk result (unfinished.new.members.items ≡ unfinished.old.members.items) }
{
    match number_form(number, depth)? {
        Form::Same => Ok(Value::Number(number)),
        Form::Digits => Ok(Value::Number(front_digits(number))),
        Form::Listed => list_of(number, unfinished),
    }
}

/// The next value of the reader, in its plain form. Arrays and objects may nest `depth` deep.
#[cycle(tree)]
#[inline(always)]
pub fn read_one<'a>(
    reader: &mut Reader<'a>,
    depth: usize,
    unfinished: &mut Unfinished<'a>,
) -> Result<Value<'a>, TreeFault>
    ensures ok { IfOk result
        (λ v. value depth (plain_tokens reader.old) ≡ Some (value_view v, plain_tokens reader.new)) }
    ensures shorter { OnOk result (length reader.new < length reader.old) }
    ensures items { OnOk result (unfinished.new.items.items ≡ unfinished.old.items.items) }
    ensures members { OnOk result (unfinished.new.members.items ≡ unfinished.old.members.items) }
{
    let token = reader.next().ok_or(TreeFault::Other)?;
    match token {
        Token::String(text) => Ok(Value::String(text)),
        Token::Number(number) => read_number(number, depth, unfinished),
        Token::Bool(b) => Ok(Value::Bool(b)),
        Token::Null => Ok(Value::Null),
        Token::EndObject | Token::EndArray | Token::Key(_) | Token::Bad => Err(TreeFault::Other),
        Token::BeginArray => {
            if depth == 0 {
                return Err(TreeFault::Other);
            }
            Ok(Value::Array(read_items(reader, depth - 1, unfinished)?))
        }
        Token::BeginObject => {
            if depth == 0 {
                return Err(TreeFault::Other);
            }
            Ok(Value::Object(read_members(reader, depth - 1, unfinished)?))
        }
    }
}

/// The values of an array whose bracket the reader has passed, up to the one that closes it, in their plain form.
#[cycle(tree)]
#[inline(never)]
fn read_items<'a>(
    reader: &mut Reader<'a>,
    depth: usize,
    unfinished: &mut Unfinished<'a>,
) -> Result<Vec<Value<'a>>, TreeFault>
    ensures ok { IfOk result (λ list. let ts = plain_tokens reader.old in
        items (value depth) (length ts) ts ≡ Some (items_view list.items, plain_tokens reader.new)) }
    ensures shorter { OnOk result (length reader.new < length reader.old) }
    ensures items { OnOk result (unfinished.new.items.items ≡ unfinished.old.items.items) }
    ensures members { OnOk result (unfinished.new.members.items ≡ unfinished.old.members.items) }
{
    let from = unfinished.items.len();
    'items: while !reader.take_end_array() {
        let item = read_one(reader, depth, unfinished)?;
        unfinished.items.push(item)?;
    }
    take_from(&mut unfinished.items, from)
}

/// The members of an object whose brace the reader has passed, up to the one that closes it, in their plain form.
#[cycle(tree)]
#[inline(never)]
fn read_members<'a>(
    reader: &mut Reader<'a>,
    depth: usize,
    unfinished: &mut Unfinished<'a>,
) -> Result<Vec<(&'a str, Value<'a>)>, TreeFault>
    ensures ok { IfOk result (λ list. let ts = plain_tokens reader.old in
        members (value depth) (length ts) ts ≡ Some (members_view list.items, plain_tokens reader.new)) }
    ensures shorter { OnOk result (length reader.new < length reader.old) }
    ensures items { OnOk result (unfinished.new.items.items ≡ unfinished.old.items.items) }
    ensures members { OnOk result (unfinished.new.members.items ≡ unfinished.old.members.items) }
{
    let from = unfinished.members.len();
    'members: loop {
        let key = match reader.next_key() {
            Ok(Some(key)) => key,
            Ok(None) => break,
            Err(_) => return Err(TreeFault::Other),
        };
        let member = read_one(reader, depth, unfinished)?;
        unfinished.members.push((key, member))?;
    }
    take_from(&mut unfinished.members, from)
}
