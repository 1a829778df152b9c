//! The tree of the plain form of a text of whose values parts alone are wanted. All else is checked and passed over.
ghost use Rattle.std.specs.Prelude.{◌≡◌, ◌<◌, ◌∷◌, ◌++◌, length, Some, IfOk, OnOk, option_map};
ghost use Rattle.json.specs.Json.{Json, Members, members, value};
ghost use Rattle.json.specs.Value.{value_view, members_view};
ghost use Rattle.json_whole.specs.PlainTokens.{plain_tokens};
ghost use Rattle.json_whole.specs.Parts.{is_whole_key, part_of, at_key, wanted_members, built};

use crate::parsing::{TreeFault, Unfinished, read_one, take_from};
use crate::passing::pass_over;
use json::{Reader, Token, Value};

/// What is wanted of an object: the values at some keys whole, and of the value at one more key a part. A list of these
/// says what is wanted of a value: the first says it of the value itself, and the rest of what stands at its key
/// `part`. Where the list is empty, the value is wanted whole.
#[derive(Clone, Copy)]
pub struct Wanted<'k> {
    /// The keys whose values are wanted whole.
    pub whole: &'k [&'k str],
    /// The key of whose value a part is wanted.
    pub part: &'k str,
}

impl<'k> Wanted<'k> {
    /// Whether the value at a key is wanted whole.
    fn is_whole_key(&self, key: &str) -> bool
        ensures { result ≡ is_whole_key self.now key.now }
    {
        self.whole.iter().any(|k| *k == key)
    }
}

/// The next value of the reader in its plain form, of which objects have those members alone that are wanted. Other
/// where the value itself is neither an object nor null, unless it is wanted whole.
#[cycle(part)]
pub fn read_part<'a>(
    reader: &mut Reader<'a>,
    depth: usize,
    wanted: &[Wanted],
    unfinished: &mut Unfinished<'a>,
) -> Result<Value<'a>, TreeFault>
    ensures ok { IfOk result (λ v. (j : Json)
        × (value depth (plain_tokens reader.old) ≡ Some (j, plain_tokens reader.new))
        × (part_of wanted.now j ≡ value_view v)) }
    ensures shorter { OnOk result (length reader.new < length reader.old) }
    ensures items { OnOk result (unfinished.new.items.items ≡ unfinished.old.items.items) }
    ensures members { OnOk result (unfinished.new.members.items ≡ unfinished.old.members.items) }
{
    match wanted {
        [] => read_one(reader, depth, unfinished),
        [first, within @ ..] => read_object(reader, depth, first, within, unfinished),
    }
}

/// The next value of the reader, which is null or an object of those members alone that are wanted.
#[cycle(part)]
fn read_object<'a>(
    reader: &mut Reader<'a>,
    depth: usize,
    wanted: &Wanted,
    within: &[Wanted],
    unfinished: &mut Unfinished<'a>,
) -> Result<Value<'a>, TreeFault>
    ensures ok { IfOk result (λ v. (j : Json)
        × (value depth (plain_tokens reader.old) ≡ Some (j, plain_tokens reader.new))
        × (part_of (wanted.now ∷ within.now) j ≡ value_view v)) }
    ensures shorter { OnOk result (length reader.new < length reader.old) }
    ensures items { OnOk result (unfinished.new.items.items ≡ unfinished.old.items.items) }
    ensures members { OnOk result (unfinished.new.members.items ≡ unfinished.old.members.items) }
{
    let token = reader.next().ok_or(TreeFault::Other)?;
    match token {
        Token::Null => Ok(Value::Null),
        Token::BeginObject => {
            if depth == 0 {
                return Err(TreeFault::Other);
            }
            Ok(Value::Object(read_wanted(reader, depth - 1, wanted, within, unfinished)?))
        }
        _ => Err(TreeFault::Other),
    }
}

/// The next value of the reader, which stands at a key; none is built where nothing is wanted of it.
#[cycle(part)]
fn read_member<'a>(
    reader: &mut Reader<'a>,
    depth: usize,
    wanted: &Wanted,
    within: &[Wanted],
    key: &str,
    unfinished: &mut Unfinished<'a>,
) -> Result<Option<Value<'a>>, TreeFault>
    ensures ok { IfOk result (λ found. (j : Json)
        × (value depth (plain_tokens reader.old) ≡ Some (j, plain_tokens reader.new))
        × (at_key wanted.now key.now j (part_of within.now j) ≡ option_map value_view found)) }
    ensures shorter { OnOk result (length reader.new < length reader.old) }
    ensures items { OnOk result (unfinished.new.items.items ≡ unfinished.old.items.items) }
    ensures members { OnOk result (unfinished.new.members.items ≡ unfinished.old.members.items) }
{
    if wanted.is_whole_key(key) {
        return Ok(Some(read_one(reader, depth, unfinished)?));
    }
    if wanted.part == key {
        return Ok(Some(read_part(reader, depth, within, unfinished)?));
    }
    pass_over(reader, depth)?;
    Ok(None)
}

/// Adds a member, where something is built of it.
fn add_member<'a>(
    members: &mut Vec<(&'a str, Value<'a>)>,
    key: &'a str,
    found: Option<Value<'a>>,
) -> Result<(), TreeFault>
    ensures { OnOk result (members.new.items ≡ members.old.items ++ built key.entry found.entry) }
{
    if let Some(member) = found {
        members.push((key, member))?;
    }
    Ok(())
}

/// The wanted members of an object whose brace the reader has passed, up to the one that closes it.
#[cycle(part)]
#[inline(never)]
fn read_wanted<'a>(
    reader: &mut Reader<'a>,
    depth: usize,
    wanted: &Wanted,
    within: &[Wanted],
    unfinished: &mut Unfinished<'a>,
) -> Result<Vec<(&'a str, Value<'a>)>, TreeFault>
    ensures ok { IfOk result (λ list. let ts = plain_tokens reader.old in (ms : Members)
        × (members (value depth) (length ts) ts ≡ Some (ms, plain_tokens reader.new))
        × (wanted_members wanted.now within.now ms ≡ members_view list.items)) }
    ensures shorter { OnOk result (length reader.new < length reader.old) }
    ensures items { OnOk result (unfinished.new.items.items ≡ unfinished.old.items.items) }
    ensures members { OnOk result (unfinished.new.members.items ≡ unfinished.old.members.items) }
{
    let from = unfinished.members.len();
    'members: loop {
        let key = match reader.next_key() {
            Ok(Some(key)) => key,
            Ok(None) => break,
            Err(_) => return Err(TreeFault::Other),
        };
        let member = read_member(reader, depth, wanted, within, key, unfinished)?;
        add_member(&mut unfinished.members, key, member)?;
    }
    take_from(&mut unfinished.members, from)
}
