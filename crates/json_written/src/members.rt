//! Members of an object, put one by one.
ghost use Rattle.std.specs.Prelude.{◌≡◌, [], ◌∷◌, OnOk, OnErr};
ghost use Rattle.json.specs.Token.{key, string};
ghost use Rattle.serde_json.specs.Data.{unsigned, number as number_data};
ghost use Rattle.json_written.specs.Texts.{readable};
ghost use Rattle.json_written.specs.Tokens.{Adds, AddsFront, value_tokens};

use json::Writer;
use std::alloc::AllocError;
use std::str;

/// A text as JSON holds it: bytes that are no UTF-8 give the empty text.
pub fn readable(bytes: &[u8]) -> &str
    ensures { result.now ≡ readable bytes.now }
{
    match str::from_utf8(bytes) {
        Ok(text) => text,
        Err(_) => "",
    }
}

/// Writes a key with a text. After want of memory some first of the two tokens are written.
pub fn put_text(writer: &mut Writer, name: &str, text: &str) -> Result<(), AllocError>
    ensures ok { OnOk result (Adds writer.old writer.new (key name.now ∷ string text.now ∷ [])) }
    ensures err { OnErr result (AddsFront writer.old writer.new (key name.now ∷ string text.now ∷ [])) }
{
    writer.key(name)?;
    writer.string(text)
}

/// Writes a key with a number. After want of memory some first of the two tokens are written.
pub fn put_number(writer: &mut Writer, name: &str, n: u64) -> Result<(), AllocError>
    ensures ok { OnOk result (Adds writer.old writer.new (key name.now ∷ value_tokens (number_data (unsigned n)))) }
    ensures err { OnErr result
        (AddsFront writer.old writer.new (key name.now ∷ value_tokens (number_data (unsigned n)))) }
{
    writer.key(name)?;
    writer.u64(n)
}
