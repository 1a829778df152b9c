//! Whole texts: a source read to its end, and a text written whole.
ghost use Rattle.std.specs.Prelude.{◌≡◌, ◌<◌, ◌≤◌, ◌+◌, ◌-◌, ◌++◌, ℕ, List, length, vec_len, Some, IfOk, IfSome};
ghost use Rattle.std.specs.Prelude.{IsErrOf, IsOk, OnErr, OnOk};
ghost use Rattle.std.specs.Io.KnownBytes.{Appends, Consumes, IsAtEnd};
ghost use Rattle.flux_io.specs.Counts.{HasCause, Rose};
ghost use Rattle.flux_io.specs.Streams.{LosesFront, TakesFront};

use crate::streams::{Failed, Sink, Source};
use flux_defs::Text;
use std::alloc::{AllocError, Global};

/// Why a source wasn't read to its end.
#[derive(Clone, Copy, Debug, PartialEq, Eq)]
pub enum ReadAllFail {
    /// The source failed, and its count of faults rose in that call.
    Failed,
    /// The source gave more bytes than were allowed.
    Long,
    /// No memory was left.
    Memory,
}

/// How many bytes a source is asked for at once.
const BUFFER_BYTES: usize = 65_536;

/// The room that a source's pieces come into.
fn new_buffer(alloc: Global) -> Result<Vec<u8>, AllocError>
    ensures { IfOk result (λ buffer. 0 < vec_len buffer) }
{
    Vec::from_elem(alloc, 0u8, BUFFER_BYTES)
}

/// Reads a source to its end, where it gives at most `most` bytes. It holds no more than these and a buffer.
///
/// # Errors
/// `Failed` where the source failed, `Long` where it gave more than `most` bytes, and `Memory` where no memory
/// was left. The bytes that were read till then are lost.
pub fn read_all<S: Source>(alloc: Global, source: &mut S, most: u64) -> Result<Text, ReadAllFail>
    ensures whole { IfOk result (λ text. IfSome (S.left source.old) (λ bytes. text ≡ bytes)) }
    ensures most { IfOk result (λ text. length text ≤ most) }
    ensures end { OnOk result (IsAtEnd (S.left source.new)) }
    ensures later { S.faults source.old ≤ S.faults source.new }
    ensures failed { IsErrOf result ReadAllFail.Failed → Rose (S.faults source.old) (S.faults source.new) }
    ensures long { IsErrOf result ReadAllFail.Long
        → IfSome (S.left source.old) (λ bytes. most < length bytes) }
    ensures front { LosesFront (S.left source.old) (S.left source.new) }
{
    let mut taken = Vec::new(alloc);
    append_all(alloc, source, &mut taken, most)?;
    Ok(Text::of_vec(taken))
}

/// Appends to `into` what a source gives to its end, where this is at most `most` bytes; after any other answer
/// `into` has the bytes that it had. No memory is taken for more than those and `most` bytes and a buffer.
pub(crate) fn append_all<S: Source>(
    alloc: Global,
    source: &mut S,
    into: &mut Vec<u8>,
    most: u64,
) -> Result<(), ReadAllFail>
    ensures whole { OnOk result (IfSome (S.left source.old)
        (λ bytes. into.new.items ≡ into.old.items ++ bytes)) }
    ensures appends { OnOk result ((bytes : List ℕ) × (length bytes ≤ most)
        × (into.new.items ≡ into.old.items ++ bytes)) }
    ensures same { OnErr result (into.new.items ≡ into.old.items) }
    ensures end { OnOk result (IsAtEnd (S.left source.new)) }
    ensures later { S.faults source.old ≤ S.faults source.new }
    ensures failed { IsErrOf result ReadAllFail.Failed → Rose (S.faults source.old) (S.faults source.new) }
    ensures long { IsErrOf result ReadAllFail.Long
        → IfSome (S.left source.old) (λ bytes. most < length bytes) }
    ensures front { LosesFront (S.left source.old) (S.left source.new) }
{
    let start = into.len();
    let result = take_all(alloc, source, into, most);
    if result.is_err() {
        into.truncate(start);
    }
    result
}

/// The same, but after another answer than `Ok` the bytes that were read till then stand in `into`.
fn take_all<S: Source>(
    alloc: Global,
    source: &mut S,
    into: &mut Vec<u8>,
    most: u64,
) -> Result<(), ReadAllFail>
    ensures taken { (bytes : List ℕ) × Consumes (S.left source.old) (S.left source.new) bytes
        × OnOk result ((length bytes ≤ most) × (into.new.items ≡ into.old.items ++ bytes)) }
    ensures grown { (bytes : List ℕ) × (into.new.items ≡ into.old.items ++ bytes) }
    ensures end { OnOk result (IsAtEnd (S.left source.new)) }
    ensures later { S.faults source.old ≤ S.faults source.new }
    ensures failed { IsErrOf result ReadAllFail.Failed → Rose (S.faults source.old) (S.faults source.new) }
    ensures long { IsErrOf result ReadAllFail.Long
        → IfSome (S.left source.old) (λ bytes. most < length bytes) }
{
    let largest = into.len().saturating_add(most as usize);
    let Ok(mut buffer) = new_buffer(alloc) else {
        return Err(ReadAllFail::Memory);
    };
    'pieces: loop {
        let Ok(count) = source.pull(&mut buffer) else {
            return Err(ReadAllFail::Failed);
        };
        if count == 0 {
            return Ok(());
        }
        if count > largest - into.len() {
            return Err(ReadAllFail::Long);
        }
        if append_within(into, &buffer[..count], largest).is_err() {
            return Err(ReadAllFail::Memory);
        }
    }
}

/// Appends the bytes. Where the capacity is too small it is doubled, but only up to `largest`.
fn append_within(into: &mut Vec<u8>, bytes: &[u8], largest: usize) -> Result<(), AllocError>
    requires { vec_len into.old + length bytes.now ≤ largest }
    ensures ok { OnOk result (into.new.items ≡ into.old.items ++ bytes.now) }
    ensures err { OnErr result (into.new.items ≡ into.old.items) }
{
    let needed = into.len() + bytes.len();
    if into.capacity() < needed {
        let doubled = into.capacity().saturating_mul(2).min(largest);
        into.reserve_exact(doubled.max(needed) - into.len())?;
    }
    into.extend_from_slice(bytes)
}

/// Writes the text whole, or a front of it where a push fails. It takes no memory.
///
/// # Errors
/// `Failed` where the sink failed. It took some first bytes of the text, and no others.
pub fn write_all<O: Sink>(out: &mut O, text: &Text) -> Result<(), Failed>
    ensures whole { OnOk result (Appends (O.held out.old) (O.held out.new) text.now) }
    ensures front { TakesFront (O.held out.old) (O.held out.new) (O.room out.old) (O.room out.new) text.now }
    ensures cause { HasCause (O.faults out.old) (O.faults out.new) result }
    ensures room { IfSome (O.room out.old)
        (λ room. OnOk result (O.room out.new ≡ Some (room - length text.now))) }
    ensures fits { IfSome (O.room out.old) (λ room. length text.now ≤ room
        → IsOk result × (O.faults out.new ≡ O.faults out.old)) }
{
    let mut rest = text.bytes();
    'pieces: while !rest.is_empty() {
        let count = out.push(rest)?;
        rest = &rest[count..];
    }
    Ok(())
}
