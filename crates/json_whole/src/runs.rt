//! Runs of number bytes, and how the plain form writes them.
ghost use Rattle.std.specs.Prelude.{◌≡◌, ◌++◌, ◌==◌, ◌≤◌, length, take, slice_index, drop, OnOk, nat_le, ◌^◌, IsTrue};
ghost use Rattle.std.specs.List.{list_all};
ghost use Rattle.std.specs.Char.{is_ascii_digit};
ghost use Rattle.std.specs.Str.Parse.{digits_value};
ghost use Rattle.json_whole.specs.Run.{begins_run, is_run_byte, digit_count, run_len, is_number, is_whole};
ghost use Rattle.json_whole.specs.Run.{has_zero_fraction, is_negative, first_run, written};
ghost use Rattle.json_whole.specs.Forms.{written_as};

use std::alloc::AllocError;

/// How a run is written.
#[derive(Clone, Copy, Debug, PartialEq, Eq)]
pub enum Form {
    /// As it stands.
    Same,
    /// Its digits before the dot.
    Digits,
    /// A list of its text.
    Listed,
}

/// Whether a run begins at such a byte outside strings.
pub fn begins_run(byte: u8) -> bool
    ensures { result ≡ begins_run byte }
{
    byte.is_ascii_digit() || byte == b'-'
}

fn is_run_byte(byte: u8) -> bool
    ensures { result ≡ is_run_byte byte }
{
    byte.is_ascii_digit() || matches!(byte, b'+' | b'-' | b'.' | b'e' | b'E')
}

fn run_len(text: &[u8]) -> usize
    ensures count { result ≡ run_len text.now }
    ensures within { result ≤ length text.now }
{
    text.iter().take_while(|b| is_run_byte(**b)).count()
}

/// The run at the front, which may be empty.
pub fn first_run(text: &[u8]) -> &[u8]
    ensures run { result.now ≡ first_run text.now }
    ensures len { length result.now ≡ run_len text.now }
    ensures bytes { IsTrue (list_all is_run_byte result.now) }
{
    &text[..run_len(text)]
}

/// How many digits stand at the front.
pub fn digit_count(text: &[u8]) -> usize
    ensures count { result ≡ digit_count text.now }
    ensures within { result ≤ length text.now }
{
    text.iter().take_while(|b| b.is_ascii_digit()).count()
}

fn are_digits(text: &[u8]) -> bool
    ensures { result ≡ list_all is_ascii_digit text.now }
{
    text.iter().all(|b| b.is_ascii_digit())
}

/// Whether digits write a number of at most `most`.
fn fits(digits: &[u8], most: u64) -> bool
    requires { IsTrue (list_all is_ascii_digit digits.now) }
    ensures { result ≡ nat_le (digits_value 10 digits.now) most }
{
    match fast_float::parse_u64(digits) {
        Ok(n) => n <= most,
        Err(_) => digits.is_empty(),
    }
}

fn is_number(run: &[u8]) -> bool
    requires { IsTrue (list_all is_run_byte run.now) }
    ensures { result ≡ is_number run.now }
{
    match std::str::from_utf8(run) {
        Ok(text) => json::is_number(text),
        Err(_) => false,
    }
}

/// Whether a run is the digits of a number of 64 bits, as fewer than twenty digits are.
#[tactic(auto, using(crate::proofs::Numerals::few_digits))]
pub fn is_whole(run: &[u8]) -> bool
    ensures { result ≡ is_whole run.now }
{
    are_digits(run) && (run.len() < 20 || fits(run, u64::MAX))
}

fn is_negative(run: &[u8]) -> bool
    ensures { result ≡ is_negative run.now }
{
    match run {
        [b'-', digits @ ..] => { are_digits(digits) && !fits(digits, 0) && fits(digits, 1 << 63) }
        _ => false,
    }
}

fn are_zeros(text: &[u8]) -> bool
    ensures { result ≡ list_all (λ x. x == 48) text.now }
{
    text.iter().all(|b| *b == b'0')
}

fn has_zero_fraction(run: &[u8]) -> bool
    ensures { result ≡ has_zero_fraction run.now }
{
    let count = digit_count(run);
    match &run[count..] {
        [b'.', zeros @ ..] => are_zeros(zeros) && is_whole(&run[..count]),
        _ => false,
    }
}

/// How a run is written.
#[tactic(auto, unfolding(crate::specs::Run::written))]
pub fn form_of(run: &[u8]) -> Form
    requires { IsTrue (list_all is_run_byte run.now) }
    ensures { written_as result run.now ≡ written run.now }
{
    if is_whole(run) || is_negative(run) || !is_number(run) {
        Form::Same
    } else if has_zero_fraction(run) {
        Form::Digits
    } else {
        Form::Listed
    }
}

/// Adds a run in a form to a text.
pub fn write_run(out: &mut Vec<u8>, form: Form, run: &[u8]) -> Result<(), AllocError>
    ensures { OnOk result (out.new.items ≡ out.old.items ++ written_as form run.now) }
{
    match form {
        Form::Same => out.extend_from_slice(run),
        Form::Digits => out.extend_from_slice(&run[..digit_count(run)]),
        Form::Listed => {
            out.extend_from_slice(b"[\"")?;
            out.extend_from_slice(run)?;
            out.extend_from_slice(b"\"]")
        }
    }
}
