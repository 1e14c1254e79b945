// The pieces of an addition's text.
ghost use Rattle.std.specs.Prelude.{◌≡◌, ◌≤◌, ◌==◌, ◌||◌, not, true, false, [], ◌∷◌, length, option_map, nat_eq, IfSome, IfNone};
ghost use Rattle.std.specs.List.{list_all, ends_with};
ghost use Rattle.aso_num.specs.AmountText.{amount_of, parts_of, digits_len, whole_and_rest};
ghost use Rattle.aso_outline.specs.Rules.{is_word_byte, is_word};
ghost use Rattle.aso_script.specs.Script.{is_listed};
ghost use Rattle.aso_script.specs.Reading.{after, before, word_len, read_word, until_close, read_closed, read_name, read_database, read_amount};
ghost use Rattle.aso_script.specs.Read.{Gives};

use crate::name::{Name, WrittenAmount};
use crate::stop::Stop;
use aso_num::{digits_len, parse_amount};
use std::str;

const MOST_WORD_BYTES: usize = 30;

const MOST_DECIMALS: usize = 4;

/// What follows a fixed text, or `None` where it doesn't stand there.
pub fn after<'a>(text: &'a [u8], word: &[u8]) -> Option<&'a [u8]>
    ensures { option_map (λ x. x.now) result ≡ after word.now text.now }
{
    text.strip_prefix(word)
}

/// What stands before a fixed text at the end, or `None` where it doesn't stand there.
pub fn before<'a>(text: &'a [u8], word: &[u8]) -> Option<&'a [u8]>
    ensures { option_map (λ x. x.now) result ≡ before word.now text.now }
{
    text.strip_suffix(word)
}

/// The same as a step of the reader.
pub fn behind<'a>(text: &'a [u8], word: &[u8]) -> Result<&'a [u8], Stop>
    ensures { Gives (λ x. x.now) result (after word.now text.now) }
{
    match after(text, word) {
        Some(rest) => Ok(rest),
        None => Err(Stop::Faulty),
    }
}

fn is_word_byte(b: u8) -> bool
    ensures { result ≡ is_word_byte b }
{
    b.is_ascii_alphanumeric() || b == b'_'
}

fn word_len(text: &[u8]) -> usize
    ensures value { result ≡ word_len text.now }
    ensures within { result ≤ length text.now }
{
    for (i, b) in text.iter().enumerate() {
        if !is_word_byte(*b) {
            return i;
        }
    }
    text.len()
}

fn until_close(text: &[u8]) -> usize
    ensures value { result ≡ until_close text.now }
    ensures within { result ≤ length text.now }
{
    for (i, b) in text.iter().enumerate() {
        if *b == b']' {
            return i;
        }
    }
    text.len()
}

fn are_word_bytes(text: &[u8]) -> bool
    ensures { result ≡ list_all is_word_byte text.now }
{
    text.iter().all(|b| is_word_byte(*b))
}

fn is_word(text: &[u8]) -> bool
    ensures { result ≡ is_word text.now }
{
    1 <= text.len() && text.len() <= MOST_WORD_BYTES && are_word_bytes(text)
}

fn are_unbracketed(text: &[u8]) -> bool
    ensures { result ≡ list_all (λ b. not ((b == 91) || (b == 93))) text.now }
{
    text.iter().all(|b| *b != b'[' && *b != b']')
}

// A word is ASCII.
fn word_text(word: &[u8]) -> &str
    requires { is_word word.now ≡ true }
    ensures { result.now ≡ word.now }
{
    let Ok(text) = str::from_utf8(word) else {
        unreachable!()
    };
    text
}

/// The longest word at the front, and what follows it.
pub fn word<'a>(text: &'a [u8]) -> Result<(Name<'a>, &'a [u8]), Stop>
    ensures { Gives (λ x. (x.0, x.1.now)) result (read_word text.now) }
{
    let (word, rest) = text.split_at(word_len(text));
    if is_word(word) {
        Ok((Name::of(word_text(word)), rest))
    } else {
        Err(Stop::Faulty)
    }
}

// The text of a name that may be listed.
fn listed(name: &[u8]) -> Option<&str>
    ensures found { IfSome result (λ s. (s.now ≡ name.now) × (is_listed name.now ≡ true)) }
    ensures none { IfNone result (is_listed name.now ≡ false) }
{
    if name.is_empty() || !are_unbracketed(name) {
        return None;
    }
    match str::from_utf8(name) {
        Ok(text) => Some(text),
        Err(_) => None,
    }
}

fn closed<'a>(text: &'a [u8]) -> Result<(Name<'a>, &'a [u8]), Stop>
    ensures { Gives (λ x. (x.0, x.1.now)) result (read_closed text.now) }
{
    let size = until_close(text);
    if size == text.len() {
        return Err(Stop::Faulty);
    }
    match listed(&text[..size]) {
        Some(name) => Ok((Name::of(name), &text[size + 1..])),
        None => Err(Stop::Faulty),
    }
}

/// A bracketed name, and what follows it.
pub fn name<'a>(text: &'a [u8]) -> Result<(Name<'a>, &'a [u8]), Stop>
    ensures { Gives (λ x. (x.0, x.1.now)) result (read_name text.now) }
{
    let rest = behind(text, b"[")?;
    closed(rest)
}

/// The two names of a database, and what follows them.
pub fn database<'a>(text: &'a [u8]) -> Result<((Name<'a>, Name<'a>), &'a [u8]), Stop>
    ensures { Gives (λ x. ((x.0.0, x.0.1), x.1.now)) result (read_database text.now) }
{
    let (app, rest) = word(text)?;
    let rest = behind(rest, b".")?;
    let (db, rest) = word(rest)?;
    Ok(((app, db), rest))
}

// Whether a text ends with a point.
fn ends_open(text: &[u8]) -> bool
    ensures { result ≡ ends_with nat_eq text.now (46 ∷ []) }
{
    text.ends_with(b".")
}

fn unsigned_digits(text: &[u8]) -> (usize, usize)
    ensures whole { result.0 ≡ digits_len text.now }
    ensures decimals { result.1 ≡ length (whole_and_rest false text.now (digits_len text.now)).decimals }
{
    let whole = digits_len(text);
    match &text[whole..] {
        [b'.', fraction @ ..] => (whole, digits_len(fraction)),
        _ => (whole, 0),
    }
}

// How many digits stand before the point, and how many behind it.
fn digits_around(text: &[u8]) -> (usize, usize)
    ensures { (result.0 ≡ length (parts_of text.now).whole) × (result.1 ≡ length (parts_of text.now).decimals) }
{
    match text {
        [b'+' | b'-', unsigned @ ..] => unsigned_digits(unsigned),
        unsigned => unsigned_digits(unsigned),
    }
}

/// The amount that a whole text writes.
pub fn amount<'a>(text: &'a [u8]) -> Result<WrittenAmount<'a>, Stop>
    ensures { Gives (λ a. a) result (read_amount text.now) }
{
    let (whole, decimals) = digits_around(text);
    if whole == 0 || decimals > MOST_DECIMALS || ends_open(text) {
        return Err(Stop::Faulty);
    }
    let Ok(text) = str::from_utf8(text) else {
        return Err(Stop::Faulty);
    };
    match parse_amount(text) {
        Ok(amount) => Ok(WrittenAmount::of(text, amount)),
        Err(_) => Err(Stop::Faulty),
    }
}
