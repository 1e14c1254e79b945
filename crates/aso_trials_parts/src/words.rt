// Keys of one to four words. A key of a case is its number in decimal digits, or the list of its words in hexadecimal digits, the
// greatest first.
ghost use Rattle.std.specs.Prelude.{◌≤◌};

use crate::reading::{small, unsigned, word};
use aso_trials_cases::{CaseFault, field, number, optional};
use aso_words::{Words, by_width};
use serde_json::Value;
use std::alloc::{AllocError, Global};
use std::fmt::Write;

fn of_words<const W: usize>(items: &[Value]) -> Option<Words<W>>
    requires some { 1 ≤ W }
    requires few { W ≤ 4 }
{
    if items.len() != W {
        return None;
    }
    let mut words = [0u64; W];
    for at in 0..W {
        let Ok(word) = word(&items[at]) else {
            return None;
        };
        words[at] = word;
    }
    Some(Words::from_words(words))
}

// A key, or none where so many words don't hold it.
fn key<const W: usize>(value: &Value) -> Option<Words<W>>
    requires some { 1 ≤ W }
    requires few { W ≤ 4 }
{
    match (value, unsigned(value)) {
        (Value::Array(items), _) => of_words(items.as_slice()),
        (_, Ok(number)) => Words::from_u128(number),
        _ => None,
    }
}

fn put_words<const W: usize>(key: &Words<W>, out: &mut String) -> Result<(), AllocError> {
    let words = key.words();
    for (place, word) in words.as_slice().iter().enumerate() {
        if place > 0 {
            out.push(' ')?;
        }
        write!(out, "{word:016x}")?;
    }
    Ok(())
}

// The words of a key and its number.
fn put_key<const W: usize>(key: &Words<W>, out: &mut String) -> Result<(), AllocError> {
    put_words(key, out)?;
    match key.to_u128() {
        Some(number) => write!(out, " = {number}"),
        None => out.push_str(" past 128 bits"),
    }
}

fn put_found<const W: usize>(key: Option<Words<W>>, out: &mut String) -> Result<(), AllocError> {
    match key {
        Some(key) => put_key(&key, out),
        None => out.push_str("none"),
    }
}

// The signs that hold between two keys.
fn put_signs<const W: usize>(
    left: &Words<W>,
    right: &Words<W>,
    out: &mut String,
) -> Result<(), AllocError> {
    let signs = [
        (*left < *right, " <"),
        (*left <= *right, " <="),
        (*left == *right, " =="),
        (*left != *right, " !="),
        (*left >= *right, " >="),
        (*left > *right, " >"),
    ];
    for (holds, sign) in signs {
        if holds {
            out.push_str(sign)?;
        }
    }
    Ok(())
}

// How two keys compare, their difference and their sum.
fn put_pair<const W: usize>(case: &Value, out: &mut String) -> Result<(), CaseFault>
    requires some { 1 ≤ W }
    requires few { W ≤ 4 }
{
    let Some(low) = key::<W>(field(case, "low")?) else {
        return Err(CaseFault::Value);
    };
    let Some(high) = key::<W>(field(case, "high")?) else {
        return Err(CaseFault::Value);
    };
    if high < low {
        return Err(CaseFault::Value);
    }
    out.push_str("low")?;
    put_signs(&low, &high, out)?;
    out.push_str(" high, high")?;
    put_signs(&high, &low, out)?;
    out.push_str(" low, difference ")?;
    put_key(&high.minus(&low), out)?;
    out.push_str(", sum ")?;
    put_found(high.plus(&low), out)?;
    Ok(())
}

// A key with a value in one of its fields, what is read there, and the key when that is cleared.
fn put_field<const W: usize>(case: &Value, out: &mut String) -> Result<(), CaseFault>
    requires some { 1 ≤ W }
    requires few { W ≤ 4 }
{
    let Some(mut key) = key::<W>(field(case, "key")?) else {
        return Err(CaseFault::Value);
    };
    let shift = small(field(case, "shift")?)?;
    let width = small(field(case, "width")?)?;
    let value = word(field(case, "value")?)?;
    if width > 32 || shift > 256 || (shift + width) as usize > 64 * W || value >= 1u64 << width {
        return Err(CaseFault::Value);
    }
    key.put_field(shift, width, value as u32);
    put_words(&key, out)?;
    write!(out, ", read {:x}, cleared ", key.field(shift, width))?;
    key.put_field(shift, width, 0);
    put_words(&key, out)?;
    let is_zero = key == Words::zero();
    Ok(out.push_str(if is_zero {
        ", the key 0"
    } else {
        ", another key"
    })?)
}

// A case over so many words: two keys, a field of a key, or a key alone.
fn put_case<const W: usize>(case: &Value, out: &mut String) -> Result<(), CaseFault>
    requires some { 1 ≤ W }
    requires few { W ≤ 4 }
{
    if optional(case, "low").is_some() {
        put_pair::<W>(case, out)
    } else if optional(case, "shift").is_some() {
        put_field::<W>(case, out)
    } else {
        Ok(put_found(key::<W>(field(case, "key")?), out)?)
    }
}

/// What a case over one to four words gives.
pub fn told(alloc: Global, case: &Value) -> Result<String, CaseFault> {
    let mut out = String::new(alloc);
    match number(field(case, "words")?)? {
        1 => put_case::<1>(case, &mut out)?,
        2 => put_case::<2>(case, &mut out)?,
        3 => put_case::<3>(case, &mut out)?,
        4 => put_case::<4>(case, &mut out)?,
        _ => return Err(CaseFault::Value),
    }
    Ok(out)
}

fn bits<const W: usize>(number: u32) -> u32
    requires { W ≤ 2 }
{
    64 * W as u32 + number % 2
}

/// The bits of one word or two, and one more where the number is odd: the function is chosen by the number of words.
pub fn width_told(alloc: Global, case: &Value) -> Result<String, CaseFault> {
    let words = number(field(case, "words")?)?;
    let number = small(field(case, "number")?)?;
    if words != 1 && words != 2 {
        return Err(CaseFault::Value);
    }
    let bits = by_width!(words, bits(number));
    Ok(format!(in alloc; "{bits}")?)
}
