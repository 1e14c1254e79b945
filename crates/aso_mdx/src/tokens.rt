// What stands at the front of some tokens.
ghost use Rattle.std.specs.Prelude.{◌≡◌, option_map, is_some, codes, IfOk};
ghost use Rattle.aso_token.specs.Marks.{comma as comma_mark, open_mark};
ghost use Rattle.aso_token.specs.Words.{is_word, key as key_of, part as part_of, dot as dot_mark, equals as equals_mark, open_set as open_set_mark, close_set as close_set_mark};
ghost use Rattle.aso_token.specs.Reads.{Gives, tokens_of, front_of, read_one, begins, begin, passes};
ghost use Rattle.aso_mdx.specs.Grammar.{is_method, later_part as later_part_of, function as function_of, method as method_of};
ghost use Rattle.aso_mdx.specs.Reading.{opened};
ghost use Rattle.aso_mdx.specs.Shapes.{shape_of};

use crate::shape::Shape;
use aso_num::Text;
use aso_token::{Mark, Piece, Placed, Stop, Token};
use std::alloc::{AllocError, Global};

#[tactic(auto, unfolding(aso_token::specs::Words::is_word))]
pub fn is_key(token: &Token<'_>, word: &[u8]) -> bool
    ensures { result ≡ is_word word.now token.now }
{
    match token {
        Token::Word(piece) => piece.as_str().as_bytes().eq_ignore_ascii_case(word),
        _ => false,
    }
}

pub fn copied(alloc: Global, piece: &Piece<'_>) -> Result<Text, AllocError>
    ensures { IfOk result (λ t. t ≡ piece.now) }
{
    Ok(Text::of(String::from_str(alloc, piece.as_str())?))
}

pub fn part<'s, 'a>(
    alloc: Global,
    tokens: &'s [Placed<'a>],
) -> Result<(Text, &'s [Placed<'a>]), Stop<'s, 'a>>
    ensures { Gives (λ x. (x.0, tokens_of x.1.now)) result (read_one part_of (tokens_of tokens.now)) }
{
    let [first, rest @ ..] = tokens else {
        return Err(Stop::At(tokens));
    };
    match &first.token {
        Token::Word(piece) => Ok((copied(alloc, piece)?, rest)),
        Token::Name(piece) => Ok((copied(alloc, piece)?, rest)),
        _ => Err(Stop::At(tokens)),
    }
}

fn is_method(token: &Token<'_>) -> bool
    ensures { result ≡ is_method token.now }
{
    is_key(token, b"children") || is_key(token, b"members")
}

/// A part behind a dot.
pub fn later_part<'s, 'a>(
    alloc: Global,
    tokens: &'s [Placed<'a>],
) -> Result<(Text, &'s [Placed<'a>]), Stop<'s, 'a>>
    ensures { Gives (λ x. (x.0, tokens_of x.1.now)) result (read_one later_part_of (tokens_of tokens.now)) }
{
    let [first, rest @ ..] = tokens else {
        return Err(Stop::At(tokens));
    };
    if is_method(&first.token) {
        return Err(Stop::At(tokens));
    }
    match &first.token {
        Token::Word(piece) => Ok((copied(alloc, piece)?, rest)),
        Token::Name(piece) => Ok((copied(alloc, piece)?, rest)),
        _ => Err(Stop::At(tokens)),
    }
}

fn function(token: &Token<'_>) -> Option<Shape>
    ensures { option_map shape_of result ≡ function_of token.now }
{
    if is_key(token, b"children") {
        return Some(Shape::Children);
    }
    if is_key(token, b"members") {
        return Some(Shape::Members);
    }
    if is_key(token, b"descendants") {
        return Some(Shape::Descendants);
    }
    if is_key(token, b"leaves") {
        return Some(Shape::Leaves);
    }
    None
}

fn method(token: &Token<'_>) -> Option<Shape>
    ensures { option_map shape_of result ≡ method_of token.now }
{
    if is_key(token, b"children") {
        return Some(Shape::Children);
    }
    if is_key(token, b"members") {
        return Some(Shape::Members);
    }
    None
}

pub fn after_method<'s, 'a>(tokens: &'s [Placed<'a>]) -> Option<(Shape, &'s [Placed<'a>])>
    ensures { option_map (λ x. (shape_of x.0, tokens_of x.1.now)) result ≡ front_of method_of (tokens_of tokens.now) }
{
    let [first, rest @ ..] = tokens else {
        return None;
    };
    match method(&first.token) {
        Some(shape) => Some((shape, rest)),
        None => None,
    }
}

fn is_open(token: &Token<'_>) -> bool
    ensures { result ≡ is_some (open_mark token.now) }
{
    match token {
        Token::Mark(Mark::Open) => true,
        _ => false,
    }
}

/// A function and the parenthesis that opens behind it.
pub fn after_function<'s, 'a>(tokens: &'s [Placed<'a>]) -> Option<(Shape, &'s [Placed<'a>])>
    ensures { option_map (λ x. (shape_of x.0, tokens_of x.1.now)) result ≡ opened function_of (tokens_of tokens.now) }
{
    let [first, second, rest @ ..] = tokens else {
        return None;
    };
    if !is_open(&second.token) {
        return None;
    }
    match function(&first.token) {
        Some(shape) => Some((shape, rest)),
        None => None,
    }
}

/// The word of a crossing and the parenthesis that opens behind it.
pub fn after_crossjoin<'s, 'a>(tokens: &'s [Placed<'a>]) -> Option<&'s [Placed<'a>]>
    ensures { option_map (λ x. (tt, tokens_of x.now)) result ≡ opened (key_of (codes "crossjoin")) (tokens_of tokens.now) }
{
    let [first, second, rest @ ..] = tokens else {
        return None;
    };
    if is_open(&second.token) && is_key(&first.token, b"crossjoin") {
        Some(rest)
    } else {
        None
    }
}

pub fn after_dot<'s, 'a>(tokens: &'s [Placed<'a>]) -> Option<&'s [Placed<'a>]>
    ensures { option_map (λ x. (tt, tokens_of x.now)) result ≡ front_of dot_mark (tokens_of tokens.now) }
{
    match tokens {
        [
            Placed {
                token: Token::Mark(Mark::Dot),
                ..
            },
            rest @ ..,
        ] => Some(rest),
        _ => None,
    }
}

pub fn after_open_set<'s, 'a>(tokens: &'s [Placed<'a>]) -> Option<&'s [Placed<'a>]>
    ensures { option_map (λ x. (tt, tokens_of x.now)) result ≡ front_of open_set_mark (tokens_of tokens.now) }
{
    match tokens {
        [
            Placed {
                token: Token::Mark(Mark::OpenSet),
                ..
            },
            rest @ ..,
        ] => Some(rest),
        _ => None,
    }
}

pub fn close_set<'s, 'a>(tokens: &'s [Placed<'a>]) -> Result<&'s [Placed<'a>], Stop<'s, 'a>>
    ensures { Gives (λ x. (tt, tokens_of x.now)) result (read_one close_set_mark (tokens_of tokens.now)) }
{
    match tokens {
        [
            Placed {
                token: Token::Mark(Mark::CloseSet),
                ..
            },
            rest @ ..,
        ] => Ok(rest),
        _ => Err(Stop::At(tokens)),
    }
}

pub fn comma<'s, 'a>(tokens: &'s [Placed<'a>]) -> Result<&'s [Placed<'a>], Stop<'s, 'a>>
    ensures { Gives (λ x. (tt, tokens_of x.now)) result (read_one comma_mark (tokens_of tokens.now)) }
{
    match tokens {
        [
            Placed {
                token: Token::Mark(Mark::Comma),
                ..
            },
            rest @ ..,
        ] => Ok(rest),
        _ => Err(Stop::At(tokens)),
    }
}

/// Whether this word stands at the front.
pub fn begins_word(tokens: &[Placed<'_>], word: &[u8]) -> bool
    ensures { result ≡ begins (passes (key_of word.now)) (tokens_of tokens.now) }
{
    match tokens {
        [first, ..] => is_key(&first.token, word),
        [] => false,
    }
}

/// The tokens behind a word that has to stand at the front.
pub fn word<'s, 'a>(tokens: &'s [Placed<'a>], word: &[u8]) -> Result<&'s [Placed<'a>], Stop<'s, 'a>>
    ensures { Gives (λ x. (tt, tokens_of x.now)) result (read_one (key_of word.now) (tokens_of tokens.now)) }
{
    let [first, rest @ ..] = tokens else {
        return Err(Stop::At(tokens));
    };
    if is_key(&first.token, word) {
        Ok(rest)
    } else {
        Err(Stop::At(tokens))
    }
}

pub fn begins_non_empty(tokens: &[Placed<'_>]) -> bool
    ensures { result ≡ begin (passes (key_of (codes "non"))) (passes (key_of (codes "empty"))) (tokens_of tokens.now) }
{
    match tokens {
        [first, second, ..] => is_key(&first.token, b"non") && is_key(&second.token, b"empty"),
        [..] => false,
    }
}

pub fn begins_comma(tokens: &[Placed<'_>]) -> bool
    ensures { result ≡ begins (passes comma_mark) (tokens_of tokens.now) }
{
    match tokens {
        [
            Placed {
                token: Token::Mark(Mark::Comma),
                ..
            },
            ..
        ] => true,
        _ => false,
    }
}

pub fn begins_open(tokens: &[Placed<'_>]) -> bool
    ensures { result ≡ begins (passes open_mark) (tokens_of tokens.now) }
{
    match tokens {
        [first, ..] => is_open(&first.token),
        [] => false,
    }
}

pub fn open<'s, 'a>(tokens: &'s [Placed<'a>]) -> Result<&'s [Placed<'a>], Stop<'s, 'a>>
    ensures { Gives (λ x. (tt, tokens_of x.now)) result (read_one open_mark (tokens_of tokens.now)) }
{
    match tokens {
        [
            Placed {
                token: Token::Mark(Mark::Open),
                ..
            },
            rest @ ..,
        ] => Ok(rest),
        _ => Err(Stop::At(tokens)),
    }
}

pub fn dot<'s, 'a>(tokens: &'s [Placed<'a>]) -> Result<&'s [Placed<'a>], Stop<'s, 'a>>
    ensures { Gives (λ x. (tt, tokens_of x.now)) result (read_one dot_mark (tokens_of tokens.now)) }
{
    match tokens {
        [
            Placed {
                token: Token::Mark(Mark::Dot),
                ..
            },
            rest @ ..,
        ] => Ok(rest),
        _ => Err(Stop::At(tokens)),
    }
}

pub fn equals<'s, 'a>(tokens: &'s [Placed<'a>]) -> Result<&'s [Placed<'a>], Stop<'s, 'a>>
    ensures { Gives (λ x. (tt, tokens_of x.now)) result (read_one equals_mark (tokens_of tokens.now)) }
{
    match tokens {
        [
            Placed {
                token: Token::Mark(Mark::Equals),
                ..
            },
            rest @ ..,
        ] => Ok(rest),
        _ => Err(Stop::At(tokens)),
    }
}
