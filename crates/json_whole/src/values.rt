//! A JSON text as a value.
ghost use Rattle.std.specs.Prelude.{◌≡◌, [], false, Some, None, IfOk, IsErrOf, unwrap_or};
ghost use Rattle.serde_json.specs.Written.{has_float};
ghost use Rattle.json.specs.Value.{value_view};
ghost use Rattle.json_whole.specs.Plain.{plain_of};
ghost use Rattle.json_whole.specs.Values.{view};
ghost use Rattle.json_whole.specs.Parts.{IsPartOf};
ghost use Rattle.json_whole.specs.Whole.{json_in, value_of};

use crate::parsing::{TreeFault, Unfinished};
use crate::parts::{Wanted, read_part};
use crate::plain_form::plain_if_other;
use flux_defs::Text;
use json::{Error, Reader, Scratch, Value};
use std::alloc::{AllocError, Global};
use std::marker::Model;

/// Why a text gave no value.
#[derive(Clone, Copy, Debug, PartialEq, Eq)]
pub enum ValueFault {
    /// The plain form is no JSON text of at most 127 levels in UTF-8 without an unpaired surrogate escape.
    NotJson,
    /// No memory is left.
    Memory,
}

/// How many arrays and objects may stand within one another.
const MOST_NESTED: usize = 127;

/// A text beside its plain form, which is not copied where it is the text itself. Contracts see the text.
#[derive(Drop)]
pub struct PlainText<'b> {
    bytes: &'b [u8],
    other: Option<Text>,
    ghost plain: { unwrap_or other bytes.now ≡ plain_of bytes.now },
}

impl<'b> Model for PlainText<'b> {
    ghost use Rattle.std.specs.Prelude.{List, ℕ};

    ghost Value = { List ℕ };

    ghost view = { λ text. text.bytes.now };
}

impl<'b> PlainText<'b> {
    /// The text with its plain form.
    pub fn of(alloc: Global, bytes: &'b [u8]) -> Result<PlainText<'b>, AllocError>
        ensures { IfOk result (λ text. text ≡ bytes.now) }
    {
        let other = plain_if_other(alloc, bytes)?;
        Ok(PlainText { bytes, other })
    }

    /// The bytes of the plain form.
    fn plain(&self) -> &[u8]
        ensures { result.now ≡ plain_of self.now }
    {
        match &self.other {
            Some(text) => text.bytes(),
            None => self.bytes,
        }
    }
}

/// The tree of a JSON text.
fn read_tree<'a>(
    alloc: Global,
    text: &'a str,
    scratch: &'a mut Scratch,
) -> Result<Value<'a>, ValueFault>
    ensures tree { IfOk result (λ v. json_in text.now ≡ Some (value_view v)) }
    ensures not_json { IsErrOf result ValueFault.NotJson → json_in text.now ≡ None }
{
    let Ok(mut reader) = Reader::new(text, scratch) else {
        return Err(ValueFault::Memory);
    };
    let value = match Value::read(alloc, &mut reader, MOST_NESTED) {
        Ok(value) => value,
        Err(Error::Invalid) => return Err(ValueFault::NotJson),
        Err(_) => return Err(ValueFault::Memory),
    };
    if reader.next().is_some() {
        return Err(ValueFault::NotJson);
    }
    Ok(value)
}

/// The value of a text's plain form (RFC 8259). Its texts are borrowed from the plain form, or from the scratch where
/// they stand there with escapes. Where an object repeats a key, the last value counts. NotJson comes exactly where the
/// plain form isn't a JSON text in UTF-8 in which at most 127 arrays and objects stand within one another and each
/// escape of a surrogate has its partner (sections 7 to 9), Memory where no memory is left. No number of the value is a
/// float.
pub fn read_value<'a>(
    alloc: Global,
    text: &'a PlainText,
    scratch: &'a mut Scratch,
) -> Result<Value<'a>, ValueFault>
    ensures value { IfOk result (λ v. value_of text.now ≡ Some (view v)) }
    ensures whole { IfOk result (λ v. has_float (view v) ≡ false) }
    ensures not_json { IsErrOf result ValueFault.NotJson → value_of text.now ≡ None }
{
    let Ok(plain) = std::str::from_utf8(text.plain()) else {
        return Err(ValueFault::NotJson);
    };
    read_tree(alloc, plain, scratch)
}

/// What a value borrows beside its text: room for texts with escapes, and the plain form where that is another text.
/// What was read by way of it stays until it is lent to the next read, so one room serves many texts in turn.
#[derive(Drop)]
pub struct Room<'b> {
    scratch: Scratch,
    others: Others<'b>,
}

/// What a value borrows that is read by its plain form: that text, and room for a read of it.
#[derive(Drop)]
struct Others<'b> {
    texts: Vec<PlainText<'b>>,
    scratch: Scratch,
}

impl<'b> Room<'b> {
    /// A room in which nothing stands. It takes no memory.
    pub fn new(alloc: Global) -> Room<'b>
        ensures { result.others.texts.items ≡ [] }
    {
        let others = Others {
            texts: Vec::new(alloc),
            scratch: Scratch::new(alloc),
        };
        Room {
            scratch: Scratch::new(alloc),
            others,
        }
    }
}

/// The wanted part of the value of a text's plain form, read of the text itself. Other where the text has no value, or
/// where what is wanted isn't there in it.
fn read_at_once<'a>(
    alloc: Global,
    bytes: &'a [u8],
    wanted: &[Wanted],
    scratch: &'a mut Scratch,
) -> Result<Value<'a>, TreeFault>
    ensures { IfOk result (λ v. IsPartOf wanted.now (value_of bytes.now) (view v)) }
{
    let Ok(text) = std::str::from_utf8(bytes) else {
        return Err(TreeFault::Other);
    };
    let Ok(mut reader) = Reader::new(text, scratch) else {
        return Err(TreeFault::Memory);
    };
    let mut unfinished = Unfinished {
        items: Vec::new(alloc),
        members: Vec::new(alloc),
    };
    let value = read_part(&mut reader, MOST_NESTED, wanted, &mut unfinished)?;
    match reader.next() {
        None => Ok(value),
        Some(_) => Err(TreeFault::Other),
    }
}

/// The value of the plain form of bytes, which is made first and then read whole.
#[inline(never)]
fn read_other<'a, 'b: 'a>(
    alloc: Global,
    bytes: &'b [u8],
    others: &'a mut Others<'b>,
) -> Result<Value<'a>, ValueFault>
    ensures value { IfOk result (λ v. value_of bytes.now ≡ Some (view v)) }
    ensures whole { IfOk result (λ v. has_float (view v) ≡ false) }
    ensures not_json { IsErrOf result ValueFault.NotJson → value_of bytes.now ≡ None }
{
    let Others { texts, scratch } = others;
    texts.clear();
    let Ok(text) = PlainText::of(alloc, bytes) else {
        return Err(ValueFault::Memory);
    };
    if texts.push(text).is_err() {
        return Err(ValueFault::Memory);
    }
    read_value(alloc, &texts[0], scratch)
}

/// The value of the plain form of bytes, as `read_value` says. It is read of the text itself, in one pass; a text
/// without a value is read once more, by its plain form.
pub fn read_bytes<'a, 'b: 'a>(
    alloc: Global,
    bytes: &'b [u8],
    room: &'a mut Room<'b>,
) -> Result<Value<'a>, ValueFault>
    ensures value { IfOk result (λ v. value_of bytes.now ≡ Some (view v)) }
    ensures whole { IfOk result (λ v. has_float (view v) ≡ false) }
    ensures not_json { IsErrOf result ValueFault.NotJson → value_of bytes.now ≡ None }
{
    read_bytes_part(alloc, bytes, Default::default(), room)
}

/// As `read_bytes`, where of the value only a part is wanted: what is read agrees on it with the value of the plain
/// form. All else is checked too, but nothing is built of it where the text has what is wanted.
pub fn read_bytes_part<'a, 'b: 'a>(
    alloc: Global,
    bytes: &'b [u8],
    wanted: &[Wanted],
    room: &'a mut Room<'b>,
) -> Result<Value<'a>, ValueFault>
    ensures value { IfOk result (λ v. IsPartOf wanted.now (value_of bytes.now) (view v)) }
    ensures whole { IfOk result (λ v. has_float (view v) ≡ false) }
    ensures not_json { IsErrOf result ValueFault.NotJson → value_of bytes.now ≡ None }
{
    let Room { scratch, others } = room;
    match read_at_once(alloc, bytes, wanted, scratch) {
        Ok(value) => Ok(value),
        Err(TreeFault::Memory) => Err(ValueFault::Memory),
        Err(TreeFault::Other) => read_other(alloc, bytes, others),
    }
}
