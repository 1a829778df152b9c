//! Passing over a value: the text is checked as where its tree is read, and nothing is built.
ghost use Rattle.std.specs.Prelude.{◌≡◌, ◌<◌, length, Some, IfOk, OnOk};
ghost use Rattle.json.specs.Json.{Json, Items, Members, items, members, value};
ghost use Rattle.json_whole.specs.PlainTokens.{plain_tokens};

use crate::parsing::{TreeFault, number_form};
use json::{Reader, Token};

/// Passes over the next value of the reader. Arrays and objects may nest `depth` deep.
#[cycle(passing)]
#[inline(always)]
pub fn pass_over(reader: &mut Reader<'_>, depth: usize) -> Result<(), TreeFault>
    ensures ok { IfOk result (λ _. (j : Json)
        × (value depth (plain_tokens reader.old) ≡ Some (j, plain_tokens reader.new))) }
    ensures shorter { OnOk result (length reader.new < length reader.old) }
{
    let token = reader.next().ok_or(TreeFault::Other)?;
    match token {
        Token::Number(number) => {
            number_form(number, depth)?;
            Ok(())
        }
        Token::String(_) => Ok(()),
        Token::Bool(_) => Ok(()),
        Token::Null => Ok(()),
        Token::EndObject | Token::EndArray | Token::Key(_) | Token::Bad => Err(TreeFault::Other),
        Token::BeginArray => {
            if depth == 0 {
                return Err(TreeFault::Other);
            }
            pass_items(reader, depth - 1)
        }
        Token::BeginObject => {
            if depth == 0 {
                return Err(TreeFault::Other);
            }
            pass_members(reader, depth - 1)
        }
    }
}

/// Passes over the values of an array whose bracket the reader has passed, and the bracket that closes it.
#[cycle(passing)]
#[inline(never)]
fn pass_items(reader: &mut Reader<'_>, depth: usize) -> Result<(), TreeFault>
    ensures ok { IfOk result (λ _. let ts = plain_tokens reader.old in (js : Items)
        × (items (value depth) (length ts) ts ≡ Some (js, plain_tokens reader.new))) }
    ensures shorter { OnOk result (length reader.new < length reader.old) }
{
    'items: while !reader.take_end_array() {
        pass_over(reader, depth)?;
    }
    Ok(())
}

/// Passes over the members of an object whose brace the reader has passed, and the brace that closes it.
#[cycle(passing)]
#[inline(never)]
fn pass_members(reader: &mut Reader<'_>, depth: usize) -> Result<(), TreeFault>
    ensures ok { IfOk result (λ _. let ts = plain_tokens reader.old in (ms : Members)
        × (members (value depth) (length ts) ts ≡ Some (ms, plain_tokens reader.new))) }
    ensures shorter { OnOk result (length reader.new < length reader.old) }
{
    'members: loop {
        match reader.next_key() {
            Ok(Some(_)) => pass_over(reader, depth)?,
            Ok(None) => break,
            Err(_) => return Err(TreeFault::Other),
        }
    }
    Ok(())
}
