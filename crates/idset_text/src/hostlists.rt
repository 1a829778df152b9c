//! Hostlists: texts of host names (RFC 29).
ghost use Rattle.std.specs.Prelude.{◌≡◌, ℕ, Ok, MatchOption, ◌+◌, ◌≤◌, ◌↔◌, ◌∷◌, ◌++◌, ◌==◌, ◌||◌, not, nat_le, nat_lt};
ghost use Rattle.std.specs.Prelude.{◌&&◌, ◌<◌, false, length, decimal, position, All, Contains, IsTrue, IfOk, IfSome};
ghost use Rattle.std.specs.Prelude.{OnOk};
ghost use Rattle.flux_defs.specs.declared.limits.TheConstants.{MOST_NAME_BYTES};
ghost use Rattle.std.specs.List.{list_all, suffix_len};
ghost use Rattle.std.specs.Char.{is_ascii_digit};
ghost use Rattle.idset_text.specs.Faults.{IsResultOf};
ghost use Rattle.idset_text.specs.Items.{items_of};
ghost use Rattle.idset_text.specs.Numbers.{has_leading_zero, number_of};
ghost use Rattle.idset_text.specs.Hostlists.{is_host_name, host_number, padded, width_of, numbers_of, list_place};
ghost use Rattle.idset_text.specs.Hostlists.{hosts_of_list, hosts_of_item, hosts_of, hostlist_of, IsHostlist};
ghost use Rattle.idset_text.specs.Hostlists.{has_width, is_one_of, IsOneOf, own_names, names_of, digits_place};
ghost use Rattle.idset_text.specs.Hostlists.{prefix_of, digits_of, follows, is_alike, continues, run_text, texts_from};
ghost use Rattle.idset_text.specs.Hostlists.{hostlist_texts, AreHostlistsOf, Adds};
ghost use Rattle.text_forms.specs.Names.{is_name_byte};

use crate::faults::TextFault;
use crate::items::{ends, first_item};
use crate::numbers::{leads_with_zero, number};
use flux_defs::{List, MOST_NAME_BYTES, Text};
use itoa::Buffer;
use std::alloc::{AllocError, Global};
use text_forms::is_name;

/// One host, or the hosts of a prefix with the numbers from `lo` up to and with `hi`, each with zeros before it up to
/// `width` digits. The width 0 pads nothing.
#[derive(Debug, Drop)]
pub enum Hosts {
    One {
        name: Text,
    },
    Many {
        prefix: Text,
        lo: u32,
        hi: u32,
        width: u32,
    },
}

/// The numbers of a `Hosts::Many`.
#[derive(Clone, Copy, PartialEq, Eq)]
struct Numbers {
    lo: u32,
    hi: u32,
    width: u32,
}

/// Whether the bytes are the name of a host.
fn is_host_name(bytes: &[u8]) -> bool
    ensures { result ≡ is_host_name bytes.now }
{
    is_name(bytes, MOST_NAME_BYTES)
}

/// The number that 1 to 9 digits write; `None` for other bytes and for other numbers of digits.
pub fn number_of_host(digits: &[u8]) -> Option<u32>
    ensures value { result ≡ host_number digits.now }
    ensures short { IfSome result (λ _. length digits.now ≤ 9) }
{
    if digits.len() <= 9 {
        number(digits)
    } else {
        None
    }
}

/// How many digits a number has.
fn digit_count(number: u32) -> usize
    ensures { result ≡ length (decimal number) }
{
    let mut buffer = Buffer::new();
    buffer.format(number).len()
}

/// The width that digits ask for.
fn width(digits: &[u8]) -> usize
    ensures value { result ≡ width_of digits.now }
    ensures short { result ≤ length digits.now }
{
    if leads_with_zero(digits) {
        digits.len()
    } else {
        0
    }
}

/// Whether the name of a prefix of so many bytes and a padded number is short enough.
fn is_short(prefix_len: usize, width: usize, number: u32) -> bool
    ensures { result ≡ nat_le (prefix_len + length (padded width number)) MOST_NAME_BYTES }
{
    prefix_len.saturating_add(width.max(digit_count(number))) <= MOST_NAME_BYTES
}

/// Whether the first end, if it is padded, has as many digits as the last.
fn is_padded_alike(first: &[u8], last: &[u8]) -> bool
    ensures { result ≡ (not (has_leading_zero first.now) || (length last.now == length first.now)) }
{
    !leads_with_zero(first) || last.len() == first.len()
}

/// The numbers that a piece of a list writes behind a prefix of so many bytes.
fn piece_numbers(prefix_len: usize, piece: &[u8]) -> Option<Numbers>
    ensures { result ≡ numbers_of prefix_len piece.now }
{
    let (first, last) = ends(piece);
    let lo = number_of_host(first)?;
    let hi = number_of_host(last)?;
    let width = width(first);
    if lo > hi || !is_padded_alike(first, last) || !is_short(prefix_len, width, hi) {
        return None;
    }
    Some(Numbers {
        lo,
        hi,
        width: width as u32,
    })
}

/// The place of the first `[`.
fn open_place(item: &[u8]) -> Option<usize>
    ensures { result ≡ position (λ byte. byte == 91) item.now }
{
    item.iter().position(|byte| *byte == b'[')
}

/// The place of the first `[` of an item that ends with `]`.
fn place_of_list(item: &[u8]) -> Option<usize>
    ensures value { result ≡ list_place item.now }
    ensures within { IfSome result (λ place. place + 1 < length item.now) }
{
    match item.last() {
        Some(b']') => open_place(item),
        _ => None,
    }
}

/// Adds the hosts of a prefix with the numbers of a list; false where one of its pieces is none.
fn push_list(
    alloc: Global,
    hosts: &mut Vec<Hosts>,
    prefix: &[u8],
    list: &[u8],
) -> Result<bool, AllocError>
    ensures { IfOk result (λ read. Adds read hosts.old.items hosts.new.items (hosts_of_list prefix.now list.now)) }
{
    if !prefix.is_empty() && !is_host_name(prefix) {
        return Ok(false);
    }
    let mut rest = list;
    'pieces: loop {
        let (piece, more) = first_item(rest);
        let Some(numbers) = piece_numbers(prefix.len(), piece) else {
            return Ok(false);
        };
        hosts.push(Hosts::Many {
            prefix: Text::of(alloc, prefix)?,
            lo: numbers.lo,
            hi: numbers.hi,
            width: numbers.width,
        })?;
        let Some(next) = more else {
            return Ok(true);
        };
        rest = next;
    }
}

/// Adds the hosts of an item; false where it is none.
fn push_item(alloc: Global, hosts: &mut Vec<Hosts>, item: &[u8]) -> Result<bool, AllocError>
    ensures { IfOk result (λ read. Adds read hosts.old.items hosts.new.items (hosts_of_item item.now)) }
{
    if is_host_name(item) {
        hosts.push(Hosts::One {
            name: Text::of(alloc, item)?,
        })?;
        return Ok(true);
    }
    match place_of_list(item) {
        Some(place) => push_list(
            alloc,
            hosts,
            &item[..place],
            &item[place + 1..item.len() - 1],
        ),
        None => Ok(false),
    }
}

/// The hosts of a text's items.
fn read_hosts(alloc: Global, text: &[u8]) -> Result<List<Hosts>, TextFault>
    ensures { IsResultOf result (hosts_of (items_of 0 text.now)) }
{
    let mut hosts = Vec::new(alloc);
    let mut rest = text;
    let mut at = 0;
    'items: loop {
        let (item, more) = first_item(rest);
        let Ok(read) = push_item(alloc, &mut hosts, item) else {
            return Err(TextFault::Memory);
        };
        if !read {
            return Err(TextFault::Form { at });
        }
        let Some(next) = more else {
            return Ok(List::of_vec(hosts));
        };
        at += item.len() + 1;
        rest = next;
    }
}

/// What the text is read as.
fn read(alloc: Global, text: &[u8]) -> Result<List<Hosts>, TextFault>
    ensures { IsResultOf result (hostlist_of text.now) }
{
    match text {
        [] => Ok(List::new(alloc)),
        _ => read_hosts(alloc, text),
    }
}

/// The hosts of a hostlist, in order: nothing, or a comma list of names and of a prefix with a comma list of `N` and
/// `LO-HI` in brackets. A name has 1 to 255 letters, digits, `_`, `-` and `.`; a prefix is a name or empty; numbers
/// have
/// 1 to 9 digits, and where a zero leads `N` or `LO`, `HI` has as many digits and the names' numbers are padded to
/// them.
/// No host's name is longer than 255 bytes (RFC 29). The fault `Form` names the first byte of the first item that
/// breaks this; commas in brackets part no items.
pub fn read_hostlist(alloc: Global, text: &[u8]) -> Result<List<Hosts>, TextFault>
    // What is read is in the grammar, and what is in the grammar is read, unless memory runs out.
    ensures found { IfOk result (λ hosts. IsHostlist text.now hosts) }
    ensures only { (hosts : List Hosts) → IsHostlist text.now hosts → IsResultOf result (Ok hosts) }

    // A fault stands at the first item that breaks the grammar.
    ensures exact { IsResultOf result (hostlist_of text.now) }
{
    read(alloc, text)
}

/// Whether the digits are as many as the width, or more with no zero leading.
pub fn is_wide(width: usize, digits: &[u8]) -> bool
    ensures { result ≡ has_width width digits.now }
{
    digits.len() == width || width < digits.len() && !leads_with_zero(digits)
}

/// The test of `is_number_within`.
fn passes(lo: u32, hi: u32, width: usize, digits: &[u8]) -> bool
    ensures { result ≡ is_one_of lo hi (has_width width digits.now) (number_of digits.now) }
{
    match number(digits) {
        Some(number) => lo <= number && number <= hi && is_wide(width, digits),
        None => false,
    }
}

/// Whether the digits are one of the numbers from `lo` to `hi`, padded to the width.
fn is_number_within(lo: u32, hi: u32, width: usize, digits: &[u8]) -> bool
    ensures { IsTrue result ↔ IsOneOf lo hi width digits.now }
{
    passes(lo, hi, width, digits)
}

/// What stands behind a prefix; `None` where the name doesn't begin with it.
fn behind<'a>(name: &'a [u8], prefix: &[u8]) -> Option<&'a [u8]>
    ensures { MatchOption result
        ((rest : List ℕ) → name.now ≡ prefix.now ++ rest → ⊥) (λ rest. name.now ≡ prefix.now ++ rest.now) }
{
    name.strip_prefix(prefix)
}

impl Hosts {
    /// Whether the name is one of these hosts'.
    fn contains(&self, name: &[u8]) -> bool
        ensures { IsTrue result ↔ Contains (own_names self.now) name.now }
    {
        match self {
            Hosts::One { name: own } => own.bytes() == name,
            Hosts::Many {
                prefix,
                lo,
                hi,
                width,
            } => match behind(name, prefix.bytes()) {
                Some(digits) => is_number_within(*lo, *hi, *width as usize, digits),
                None => false,
            },
        }
    }
}

/// Whether the name is one of those that the hosts stand for. No range is expanded.
pub fn has_host(hosts: &List<Hosts>, name: &[u8]) -> bool
    ensures { IsTrue result ↔ Contains (names_of hosts.now) name.now }
{
    'hosts: for item in hosts.items() {
        if item.contains(name) {
            return true;
        }
    }
    false
}

/// Where the digits at a name's end begin.
fn place_of_digits(name: &[u8]) -> usize
    ensures { result ≡ digits_place name.now }
{
    let mut place = name.len();
    'digits: while place > 0 && name[place - 1].is_ascii_digit() {
        place -= 1;
    }
    place
}

/// A name's prefix and its longest end of digits.
pub fn parts(name: &[u8]) -> (&[u8], &[u8])
    ensures prefix { result.0.now ≡ prefix_of name.now }
    ensures digits { result.1.now ≡ digits_of name.now }
{
    let place = place_of_digits(name);
    (&name[..place], &name[place..])
}

/// Whether both write numbers of hosts, and the second is the next one.
fn is_next(last: &[u8], next: &[u8]) -> bool
    ensures { result ≡ follows (host_number last.now) (host_number next.now) }
{
    match (number_of_host(last), number_of_host(next)) {
        (Some(last), Some(next)) => u64::from(next) == u64::from(last) + 1,
        _ => false,
    }
}

/// Whether digits are equally many, or no zero leads either.
fn are_alike(first: &[u8], next: &[u8]) -> bool
    ensures { result ≡ is_alike first.now next.now }
{
    next.len() == first.len() || !leads_with_zero(first) && !leads_with_zero(next)
}

/// Whether a name continues the run from `first` to `last`.
fn does_continue(first: &[u8], last: &[u8], next: &[u8]) -> bool
    ensures { result ≡ continues first.now last.now next.now }
{
    let (prefix, digits) = parts(next);
    let (last_prefix, last_digits) = parts(last);
    let (_, first_digits) = parts(first);
    last_prefix == prefix && is_next(last_digits, digits) && are_alike(first_digits, digits)
}

/// The text of a run: its one name, or where it has many its prefix with the digits of its ends in brackets.
fn text_of_run(alloc: Global, many: bool, first: &[u8], last: &[u8]) -> Result<Text, AllocError>
    ensures { IfOk result (λ text. text ≡ run_text many first.now last.now) }
{
    if !many {
        return Text::of(alloc, first);
    }
    let (prefix, first_digits) = parts(first);
    let (_, last_digits) = parts(last);
    let mut text = Vec::from_slice(alloc, prefix)?;
    text.push(b'[')?;
    text.extend_from_slice(first_digits)?;
    text.push(b'-')?;
    text.extend_from_slice(last_digits)?;
    text.push(b']')?;
    Ok(Text::of_vec(text))
}

/// The texts of the names from the first on.
fn texts_of(alloc: Global, first: &[u8], others: &[Text]) -> Result<Vec<Text>, AllocError>
    ensures { IfOk result (λ texts. texts.items ≡ texts_from false first.now first.now others.now) }
{
    let mut texts = Vec::new(alloc);
    let mut first = first;
    let mut last = first;
    let mut many = false;
    'names: for name in others {
        let next = name.bytes();
        if does_continue(first, last, next) {
            many = true;
        } else {
            texts.push(text_of_run(alloc, many, first, last)?)?;
            first = next;
            many = false;
        }
        last = next;
    }
    texts.push(text_of_run(alloc, many, first, last)?)?;
    Ok(texts)
}

/// The texts of the names.
fn texts_of_all(alloc: Global, names: &[Text]) -> Result<Vec<Text>, AllocError>
    ensures { IfOk result (λ texts. texts.items ≡ hostlist_texts names.now) }
{
    match names {
        [] => Ok(Vec::new(alloc)),
        [first, others @ ..] => texts_of(alloc, first.bytes(), others),
    }
}

/// The hostlists of names, one for each run of names with one prefix and numbers that follow one another (RFC 29).
/// Read in order they give the names again, if each is a name.
pub fn write_hostlist(alloc: Global, names: &List<Text>) -> Result<List<Text>, AllocError>
    ensures texts { IfOk result (λ texts. texts ≡ hostlist_texts names.now) }
    ensures again { IfOk result (λ texts. All (λ name. IsTrue (is_host_name name)) names.now →
        AreHostlistsOf texts names.now) }
{
    let texts = texts_of_all(alloc, names.items())?;
    Ok(List::of_vec(texts))
}
