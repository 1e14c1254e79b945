// Tokens of texts, and numbers.
use aso_token::{Token, cut_text, parse_number};
use aso_trials_cases::{CaseFault, field, is_set, string};
use serde_json::Value;
use std::alloc::{AllocError, Global};
use std::fmt::Write;

fn put_token(token: &Token<'_>, out: &mut String) -> Result<(), AllocError> {
    match token {
        Token::Word(piece) => write!(out, "word {}", piece.as_str()),
        Token::Number(piece) => write!(out, "number {}", piece.as_str()),
        Token::Quoted(piece) => write!(out, "quoted {}", piece.as_str()),
        Token::Name(piece) => write!(out, "name {}", piece.as_str()),
        Token::Mark(mark) => write!(out, "mark {mark:?}"),
    }
}

/// The tokens of a text, each behind its place, then the place at which the cutting stopped and whether nothing is open.
pub fn told(alloc: Global, case: &Value) -> Result<String, CaseFault> {
    let text = string(alloc, field(case, "text")?)?;
    let cut = cut_text(alloc, is_set(case, "comments"), text.as_str())?;
    let mut out = String::new(alloc);
    for placed in cut.placed.items() {
        write!(out, "{} ", placed.at)?;
        put_token(&placed.token, &mut out)?;
        out.push_str("; ")?;
    }
    let end = if cut.whole { "whole" } else { "open" };
    write!(out, "{} {end}", cut.stop)?;
    Ok(out)
}

/// The units of a number's text, or that it has none.
pub fn number_told(alloc: Global, case: &Value) -> Result<String, CaseFault> {
    let text = string(alloc, field(case, "text")?)?;
    let text = text.as_str();
    match parse_number(text) {
        Some(amount) => Ok(format!(in alloc; "\"{text}\" is {}", amount.units())?),
        None => Ok(format!(in alloc; "\"{text}\" is no number")?),
    }
}
