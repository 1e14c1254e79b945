ghost use Rattle.std.specs.Prelude.{◌≡◌, ◌+◌, ◌≤◌, ◌<◌, ◌^◌, ◌==◌, ◌&&◌, not, true, length, slice_index, take, drop, IfSome};
ghost use Rattle.std.specs.Str.{IsCharBoundary};
ghost use Rattle.aso_token.specs.Lexing.{until, is_blank, is_letter, is_digit, word_len, number_len, name_span, quoted_span, comment_span, content_len, single, opens_comment, behind, mark_of, word_front, number_front, name_front, quoted_front, comment_front, front_of, EndsWith};

use crate::token::{Mark, Piece, Token};
use aso_num::digits_len;

/// How many bytes a piece of a text takes, and whether it is closed. A piece that isn't takes all that is left.
#[derive(Clone, Copy, Debug, PartialEq, Eq)]
pub struct Span {
    pub size: usize,
    pub closed: bool,
}

/// What a text begins with: a token, or white space where there is none.
#[derive(Debug, Drop)]
pub struct Front<'a> {
    pub token: Option<Token<'a>>,
    pub span: Span,
}

fn is_blank(b: u8) -> bool
    ensures { result ≡ is_blank b }
{
    matches!(b, b' ' | b'\t' | b'\r' | b'\n')
}

fn is_letter(b: u8) -> bool
    ensures { result ≡ is_letter b }
{
    b'A' <= b && b <= b'Z' || b'a' <= b && b <= b'z' || b == b'_'
}

fn is_digit(b: u8) -> bool
    ensures { result ≡ is_digit b }
{
    b'0' <= b && b <= b'9'
}

fn mark_of(b: u8) -> Option<Mark>
    ensures { result ≡ mark_of b }
{
    match b {
        b'.' => Some(Mark::Dot),
        b',' => Some(Mark::Comma),
        b'(' => Some(Mark::Open),
        b')' => Some(Mark::Close),
        b'{' => Some(Mark::OpenSet),
        b'}' => Some(Mark::CloseSet),
        b'+' => Some(Mark::Plus),
        b'-' => Some(Mark::Minus),
        b'*' => Some(Mark::Star),
        b'/' => Some(Mark::Slash),
        b'=' => Some(Mark::Equals),
        _ => None,
    }
}

fn word_len(text: &[u8]) -> usize
    ensures value { result ≡ word_len text.now }
    ensures within { result ≤ length text.now }
{
    for (i, b) in text.iter().enumerate() {
        if !(is_letter(*b) || is_digit(*b)) {
            return i;
        }
    }
    text.len()
}

fn until(end: u8, text: &[u8]) -> usize
    ensures value { result ≡ until end text.now }
    ensures within { result ≤ length text.now }
{
    for (i, b) in text.iter().enumerate() {
        if *b == end {
            return i;
        }
    }
    text.len()
}

// Digits, which a point and further digits may follow.
fn number_len(text: &[u8]) -> usize
    ensures value { result ≡ number_len text.now }
    ensures within { result ≤ length text.now }
{
    let whole = digits_len(text);
    match &text[whole..] {
        [b'.', fraction @ ..] => {
            let decimals = digits_len(fraction);
            if decimals == 0 {
                whole
            } else {
                whole + 1 + decimals
            }
        }
        _ => whole,
    }
}

// A name behind the bracket that opens it, with the one that closes it.
fn name_span(text: &[u8]) -> Span
    ensures value { result ≡ name_span text.now }
    ensures ends { EndsWith 93 text.now result }
{
    let size = until(b']', text);
    if size < text.len() {
        Span {
            size: size + 1,
            closed: true,
        }
    } else {
        Span {
            size,
            closed: false,
        }
    }
}

// Whether a quoted text ended at the quote before this byte.
fn quote_ended(quote: bool, b: u8) -> bool
    ensures { result ≡ (quote && not (b == 39)) }
{
    quote && b != b'\''
}

// Whether this byte is a quote that no other one before it doubles.
fn is_lone_quote(quote: bool, b: u8) -> bool
    ensures { result ≡ (not quote && (b == 39)) }
{
    !quote && b == b'\''
}

// A quoted text behind the quote that opens it, with the one that closes it. A doubled quote closes nothing.
fn quoted_span(text: &[u8]) -> Span
    ensures value { result ≡ quoted_span text.now }
    ensures ends { EndsWith 39 text.now result }
{
    let mut quote = false;
    for (i, b) in text.iter().enumerate() {
        if quote_ended(quote, *b) {
            return Span {
                size: i,
                closed: true,
            };
        }
        quote = is_lone_quote(quote, *b);
    }
    Span {
        size: text.len(),
        closed: quote,
    }
}

fn comment_ends(star: bool, b: u8) -> bool
    ensures { result ≡ (star && (b == 47)) }
{
    star && b == b'/'
}

// A comment behind the two bytes that open it, with the two that close it.
fn comment_span(text: &[u8]) -> Span
    ensures value { result ≡ comment_span text.now }
    ensures ends { EndsWith 47 text.now result }
{
    let mut star = false;
    for (i, b) in text.iter().enumerate() {
        if comment_ends(star, *b) {
            return Span {
                size: i + 1,
                closed: true,
            };
        }
        star = *b == b'*';
    }
    Span {
        size: text.len(),
        closed: false,
    }
}

fn content_len(span: Span) -> usize
    ensures { result ≡ content_len span }
{
    if span.closed {
        span.size.saturating_sub(1)
    } else {
        span.size
    }
}

fn behind(before: usize, span: Span) -> Span
    requires { before + span.size < 2 ^ 64 }
    ensures { result ≡ behind before span }
{
    Span {
        size: before + span.size,
        closed: span.closed,
    }
}

fn first_bytes(text: &str, size: usize) -> &str
    requires { IsCharBoundary text.now size }
    ensures { result.now ≡ take size text.now }
{
    &text[..size]
}

pub(crate) fn bytes_after(text: &str, size: usize) -> &str
    requires { IsCharBoundary text.now size }
    ensures { result.now ≡ drop size text.now }
{
    &text[size..]
}

// The text behind an ASCII byte.
fn inner(text: &str) -> &str
    requires some { 1 ≤ length text.now }
    requires ascii { slice_index text.now 0 < 128 }
    ensures { result.now ≡ drop 1 text.now }
{
    bytes_after(text, 1)
}

fn word<'a>(text: &'a str) -> Front<'a>
    requires some { 1 ≤ length text.now }
    requires ascii { slice_index text.now 0 < 128 }
    ensures value { result ≡ word_front text.now }
    ensures some { 1 ≤ result.span.size }
    ensures boundary { IsCharBoundary text.now result.span.size }
{
    let size = 1 + word_len(inner(text).as_bytes());
    Front {
        token: Some(Token::Word(Piece::of(first_bytes(text, size)))),
        span: Span { size, closed: true },
    }
}

fn number<'a>(text: &'a str) -> Front<'a>
    requires some { 1 ≤ length text.now }
    requires ascii { slice_index text.now 0 < 128 }
    ensures value { result ≡ number_front text.now }
    ensures some { 1 ≤ result.span.size }
    ensures boundary { IsCharBoundary text.now result.span.size }
{
    let size = 1 + number_len(inner(text).as_bytes());
    Front {
        token: Some(Token::Number(Piece::of(first_bytes(text, size)))),
        span: Span { size, closed: true },
    }
}

fn name<'a>(text: &'a str) -> Front<'a>
    requires some { 1 ≤ length text.now }
    requires ascii { slice_index text.now 0 < 128 }
    ensures value { result ≡ name_front text.now }
    ensures some { 1 ≤ result.span.size }
    ensures boundary { IsCharBoundary text.now result.span.size }
{
    let inner = inner(text);
    let span = name_span(inner.as_bytes());
    let content = first_bytes(inner, content_len(span));
    Front {
        token: Some(Token::Name(Piece::of(content))),
        span: behind(1, span),
    }
}

fn quoted<'a>(text: &'a str) -> Front<'a>
    requires some { 1 ≤ length text.now }
    requires ascii { slice_index text.now 0 < 128 }
    ensures value { result ≡ quoted_front text.now }
    ensures some { 1 ≤ result.span.size }
    ensures boundary { IsCharBoundary text.now result.span.size }
{
    let inner = inner(text);
    let span = quoted_span(inner.as_bytes());
    let content = first_bytes(inner, content_len(span));
    Front {
        token: Some(Token::Quoted(Piece::of(content))),
        span: behind(1, span),
    }
}

fn comment<'a>(text: &'a str) -> Front<'a>
    requires some { 2 ≤ length text.now }
    requires ascii { slice_index text.now 0 < 128 }
    requires second { slice_index text.now 1 < 128 }
    ensures value { result ≡ comment_front text.now }
    ensures some { 1 ≤ result.span.size }
    ensures boundary { IsCharBoundary text.now result.span.size }
{
    let further = inner(inner(text));
    Front {
        token: None,
        span: behind(2, comment_span(further.as_bytes())),
    }
}

fn opens_comment(text: &[u8]) -> bool
    ensures value { result ≡ opens_comment text.now }
    ensures slash { result ≡ true → (2 ≤ length text.now) × (slice_index text.now 0 < 128) × (slice_index text.now 1 < 128) }
{
    matches!(text, [b'/', b'*', ..])
}

// A token, or white space, of one byte.
fn single<'a>(token: Option<Token<'a>>) -> Front<'a>
    ensures { result ≡ single token.entry }
{
    Front {
        token,
        span: Span {
            size: 1,
            closed: true,
        },
    }
}

/// What a text begins with, or `None` where its first byte begins nothing. Comments are white space where they are allowed.
pub(crate) fn front_of<'a>(comments: bool, text: &'a str) -> Option<Front<'a>>
    ensures value { result ≡ front_of comments text.now }
    ensures some { IfSome result (λ f. 1 ≤ f.span.size) }
    ensures boundary { IfSome result (λ f. IsCharBoundary text.now f.span.size) }
{
    let bytes = text.as_bytes();
    let [first, ..] = bytes else {
        return None;
    };
    let first = *first;
    if first >= 128 {
        return None;
    }
    if is_blank(first) {
        return Some(single(None));
    }
    if comments && opens_comment(bytes) {
        return Some(comment(text));
    }
    if is_letter(first) {
        return Some(word(text));
    }
    if is_digit(first) {
        return Some(number(text));
    }
    if first == b'[' {
        return Some(name(text));
    }
    if first == b'\'' {
        return Some(quoted(text));
    }
    match mark_of(first) {
        Some(mark) => Some(single(Some(Token::Mark(mark)))),
        None => None,
    }
}
