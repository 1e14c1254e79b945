// Texts, marks, words, numbers and lists.
ghost use Rattle.std.specs.Prelude.{◌≡◌, map, option_map};
ghost use Rattle.serde_json.specs.Find.{as_array};
ghost use Rattle.serde_json.specs.View.{items_view, view};
ghost use Rattle.aso_outjson.specs.Fields.{each, flag_in, list_in, or_fault, some, text_in, word_in};
ghost use Rattle.aso_outjson.specs.Gives.{Gives};
ghost use Rattle.aso_outjson.specs.Words.{aggregate_of, kind_of, op_of, solve_in};

use crate::part::Part;
use crate::parts::Parts;
use crate::trouble::Trouble;
use crate::written::Kind;
use aso_num::Text;
use aso_outline::{Aggregate, Op};
use serde_json::Value;
use std::alloc::Global;

fn or_fault<T: Drop>(alloc: Global, found: Option<T>) -> Result<T, Trouble>
    ensures { Gives result (or_fault found) }
{
    match found {
        Some(part) => Ok(part),
        None => Err(Trouble::here(alloc)),
    }
}

impl Part for Text {
    ghost reads = { text_in };

    fn read(alloc: Global, value: &Value) -> Result<Text, Trouble> {
        match value.as_str() {
            Some(text) => {
                let mut copy = String::new(alloc);
                copy.push_str(text)?;
                Ok(Text::of(copy))
            }
            None => Err(Trouble::here(alloc)),
        }
    }
}

impl Part for bool {
    ghost reads = { flag_in };

    fn read(alloc: Global, value: &Value) -> Result<bool, Trouble> {
        or_fault(alloc, value.as_bool())
    }
}

fn op_of(word: &str) -> Option<Op>
    ensures { result ≡ op_of word.now }
{
    match word {
        "+" => Some(Op::Plus),
        "-" => Some(Op::Minus),
        "*" => Some(Op::Times),
        "/" => Some(Op::Over),
        "~" => Some(Op::Skip),
        _ => None,
    }
}

impl Part for Op {
    ghost reads = { word_in op_of };

    fn read(alloc: Global, value: &Value) -> Result<Op, Trouble> {
        match value.as_str() {
            Some(word) => or_fault(alloc, op_of(word)),
            None => Err(Trouble::here(alloc)),
        }
    }
}

fn aggregate_of(word: &str) -> Option<Aggregate>
    ensures { result ≡ aggregate_of word.now }
{
    match word {
        "all" => Some(Aggregate::All),
        "top" => Some(Aggregate::Top),
        "none" => Some(Aggregate::Bottom),
        _ => None,
    }
}

impl Part for Aggregate {
    ghost reads = { word_in aggregate_of };

    fn read(alloc: Global, value: &Value) -> Result<Aggregate, Trouble> {
        match value.as_str() {
            Some(word) => or_fault(alloc, aggregate_of(word)),
            None => Err(Trouble::here(alloc)),
        }
    }
}

fn kind_of(word: &str) -> Option<Kind>
    ensures { result ≡ kind_of word.now }
{
    match word {
        "stored" => Some(Kind::Stored),
        "dynamic" => Some(Kind::Dynamic),
        _ => None,
    }
}

impl Part for Kind {
    ghost reads = { word_in kind_of };

    fn read(alloc: Global, value: &Value) -> Result<Kind, Trouble> {
        match value.as_str() {
            Some(word) => or_fault(alloc, kind_of(word)),
            None => Err(Trouble::here(alloc)),
        }
    }
}

// A solve order: a whole number from 0 to 255.
impl Part for u8 {
    ghost reads = { solve_in };

    fn read(alloc: Global, value: &Value) -> Result<u8, Trouble> {
        match value.as_u64() {
            Some(solve) if solve <= 255 => Ok(solve as u8),
            _ => Err(Trouble::here(alloc)),
        }
    }
}

impl<T: Part + Drop> Part for Option<T> {
    ghost reads = { some T.reads };

    fn read(alloc: Global, value: &Value) -> Result<Option<T>, Trouble> {
        let part = T::read(alloc, value)?;
        Ok(Some(part))
    }
}

/// The items of a list.
pub fn items(value: &Value) -> Option<&[Value]>
    ensures { option_map (λ vs. items_view vs.now) result ≡ as_array (view value.now) }
{
    match value.as_array() {
        Some(values) => Some(values.as_slice()),
        None => None,
    }
}

fn each<T: Part + Drop>(alloc: Global, values: &[Value]) -> Result<Parts<T>, Trouble>
    ensures { Gives result (each T.reads 0 (map view values.now)) }
{
    let mut parts = Vec::new(alloc);
    for (number, value) in values.iter().enumerate() {
        match T::read(alloc, value) {
            Ok(part) => parts.push(part)?,
            Err(trouble) => return Err(trouble.under_number(alloc, number)),
        }
    }
    Ok(Parts::of(parts))
}

impl<T: Part + Drop> Part for Parts<T> {
    ghost reads = { list_in T.reads };

    fn read(alloc: Global, value: &Value) -> Result<Parts<T>, Trouble> {
        match items(value) {
            Some(values) => each(alloc, values),
            None => Err(Trouble::here(alloc)),
        }
    }
}
