// Names, quoted texts and numbers at the front of some tokens.
ghost use Rattle.std.specs.Prelude.{◌≡◌, ◌≤◌, true, length, min, option_map, IfOk};
ghost use Rattle.aso_num.specs.AmountText.{number as number_of};
ghost use Rattle.aso_token.specs.Marks.{name as name_of};
ghost use Rattle.aso_token.specs.Words.{whole, whole_within};
ghost use Rattle.aso_token.specs.Reads.{Gives, tokens_of, begins, passes, read_one};
ghost use Rattle.aso_mdx.specs.Grammar.{single_quotes, undoubled as undoubled_of, quoted as quoted_of, plain_name as plain_name_of, cut_text as cut_text_of, cut_name, pointless as pointless_of};

use crate::tokens::copied;
use aso_num::{Text, digits_len};
use aso_token::{Placed, Stop, Token};
use std::alloc::{AllocError, Global};

// What stands behind a quote, without the quote that doubles it.
fn past_quote(text: &str) -> &str
    ensures value { undoubled_of result.now ≡ single_quotes true text.now }
    ensures within { length result.now ≤ length text.now }
{
    match text.strip_prefix('\'') {
        Some(rest) => rest,
        None => text,
    }
}

fn undoubled(alloc: Global, text: &str) -> Result<Text, AllocError>
    ensures { IfOk result (λ t. t ≡ undoubled_of text.now) }
{
    let mut out = String::new(alloc);
    let mut rest = text;
    while let Some((before, after)) = rest.split_once('\'') {
        out.push_str(before)?;
        out.push('\'')?;
        rest = past_quote(after);
    }
    out.push_str(rest)?;
    Ok(Text::of(out))
}

pub fn quoted<'s, 'a>(
    alloc: Global,
    tokens: &'s [Placed<'a>],
) -> Result<(Text, &'s [Placed<'a>]), Stop<'s, 'a>>
    ensures { Gives (λ x. (x.0, tokens_of x.1.now)) result (read_one quoted_of (tokens_of tokens.now)) }
{
    let [first, rest @ ..] = tokens else {
        return Err(Stop::At(tokens));
    };
    match &first.token {
        Token::Quoted(piece) => Ok((undoubled(alloc, piece.as_str())?, rest)),
        _ => Err(Stop::At(tokens)),
    }
}

/// A word or a quoted text.
pub fn plain_name<'s, 'a>(
    alloc: Global,
    tokens: &'s [Placed<'a>],
) -> Result<(Text, &'s [Placed<'a>]), Stop<'s, 'a>>
    ensures { Gives (λ x. (x.0, tokens_of x.1.now)) result (read_one plain_name_of (tokens_of tokens.now)) }
{
    let [first, rest @ ..] = tokens else {
        return Err(Stop::At(tokens));
    };
    match &first.token {
        Token::Word(piece) => Ok((copied(alloc, piece)?, rest)),
        Token::Quoted(piece) => Ok((undoubled(alloc, piece.as_str())?, rest)),
        _ => Err(Stop::At(tokens)),
    }
}

/// A name in brackets.
pub fn name<'s, 'a>(
    alloc: Global,
    tokens: &'s [Placed<'a>],
) -> Result<(Text, &'s [Placed<'a>]), Stop<'s, 'a>>
    ensures { Gives (λ x. (x.0, tokens_of x.1.now)) result (read_one name_of (tokens_of tokens.now)) }
{
    let [first, rest @ ..] = tokens else {
        return Err(Stop::At(tokens));
    };
    match &first.token {
        Token::Name(piece) => Ok((copied(alloc, piece)?, rest)),
        _ => Err(Stop::At(tokens)),
    }
}

// A text as what stands before its first point and what stands behind it.
#[tactic(auto, using(std::proofs::lemmas::Str::Pattern::split_once_first))]
fn cut_at_point(text: &str) -> Option<(&str, &str)>
    ensures { option_map (λ x. (x.0.now, x.1.now)) result ≡ cut_text_of text.now }
{
    text.split_once('.')
}

/// Whether a name in brackets with a point stands at the front.
pub fn begins_cut_name(tokens: &[Placed<'_>]) -> bool
    ensures { result ≡ begins (passes cut_name) (tokens_of tokens.now) }
{
    let [first, ..] = tokens else {
        return false;
    };
    match &first.token {
        Token::Name(piece) => cut_at_point(piece.as_str()).is_some(),
        _ => false,
    }
}

fn both(alloc: Global, first: &str, second: &str) -> Result<(Text, Text), AllocError>
    ensures { IfOk result (λ p. p ≡ (first.now, second.now)) }
{
    let first = Text::of(String::from_str(alloc, first)?);
    let second = Text::of(String::from_str(alloc, second)?);
    Ok((first, second))
}

/// The two names in brackets with a point between them.
pub fn two_names<'s, 'a>(
    alloc: Global,
    tokens: &'s [Placed<'a>],
) -> Result<((Text, Text), &'s [Placed<'a>]), Stop<'s, 'a>>
    ensures { Gives (λ x. (x.0, tokens_of x.1.now)) result (read_one cut_name (tokens_of tokens.now)) }
{
    let [first, rest @ ..] = tokens else {
        return Err(Stop::At(tokens));
    };
    match &first.token {
        Token::Name(piece) => match cut_at_point(piece.as_str()) {
            Some((app, db)) => Ok((both(alloc, app, db)?, rest)),
            None => Err(Stop::At(tokens)),
        },
        _ => Err(Stop::At(tokens)),
    }
}

/// Whether a name in brackets without a point stands at the front.
pub fn begins_pointless(tokens: &[Placed<'_>]) -> bool
    ensures { result ≡ begins (passes pointless_of) (tokens_of tokens.now) }
{
    let [first, ..] = tokens else {
        return false;
    };
    match &first.token {
        Token::Name(piece) => cut_at_point(piece.as_str()).is_none(),
        _ => false,
    }
}

/// A name in brackets without a point.
pub fn pointless<'s, 'a>(
    alloc: Global,
    tokens: &'s [Placed<'a>],
) -> Result<(Text, &'s [Placed<'a>]), Stop<'s, 'a>>
    ensures { Gives (λ x. (x.0, tokens_of x.1.now)) result (read_one pointless_of (tokens_of tokens.now)) }
{
    let [first, rest @ ..] = tokens else {
        return Err(Stop::At(tokens));
    };
    match &first.token {
        Token::Name(piece) => match cut_at_point(piece.as_str()) {
            Some(_) => Err(Stop::At(tokens)),
            None => Ok((copied(alloc, piece)?, rest)),
        },
        _ => Err(Stop::At(tokens)),
    }
}

// The number of these digits, or 128 where it is no less.
fn capped(digits: &[u8]) -> u32
    ensures { result ≡ min (number_of digits.now) 128 }
{
    let mut number = 0u32;
    for digit in digits {
        let next = number * 10 + u32::from(digit.saturating_sub(b'0'));
        number = next.min(128);
    }
    number
}

fn order(text: &[u8]) -> Option<u8>
    ensures { result ≡ whole_within 0 127 text.now }
{
    if digits_len(text) != text.len() {
        return None;
    }
    let number = capped(text);
    if number <= 127 {
        Some(number as u8)
    } else {
        None
    }
}

/// A solve order.
pub fn solve_order<'s, 'a>(tokens: &'s [Placed<'a>]) -> Result<(u8, &'s [Placed<'a>]), Stop<'s, 'a>>
    ensures { Gives (λ x. (x.0, tokens_of x.1.now)) result (read_one (whole 0 127) (tokens_of tokens.now)) }
{
    let [first, rest @ ..] = tokens else {
        return Err(Stop::At(tokens));
    };
    match &first.token {
        Token::Number(piece) => match order(piece.as_str().as_bytes()) {
            Some(number) => Ok((number, rest)),
            None => Err(Stop::At(tokens)),
        },
        _ => Err(Stop::At(tokens)),
    }
}
