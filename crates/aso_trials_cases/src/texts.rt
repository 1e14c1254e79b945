// Texts of a case: a string, or a list of pieces that are put one behind the other: strings, bytes, and strings many times.
use crate::fault::CaseFault;
use crate::fields::{field, list};
use crate::numbers::number;
use serde_json::Value;
use std::alloc::Global;

fn push_many(piece: &str, times: u64, out: &mut Vec<u8>) -> Result<(), CaseFault> {
    for _ in 0..times {
        out.extend_from_slice(piece.as_bytes())?;
    }
    Ok(())
}

fn push_byte(piece: &Value, out: &mut Vec<u8>) -> Result<(), CaseFault> {
    match u8::try_from(number(piece)?) {
        Ok(byte) => Ok(out.push(byte)?),
        Err(_) => Err(CaseFault::Value),
    }
}

fn push_piece(piece: &Value, out: &mut Vec<u8>) -> Result<(), CaseFault> {
    match piece {
        Value::String(part) => Ok(out.extend_from_slice(part.as_bytes())?),
        Value::Object(_) => match field(piece, "of")?.as_str() {
            Some(part) => push_many(part, number(field(piece, "times")?)?, out),
            None => Err(CaseFault::Value),
        },
        _ => push_byte(piece, out),
    }
}

/// The bytes of a text.
pub fn text(alloc: Global, value: &Value) -> Result<Vec<u8>, CaseFault> {
    let mut out = Vec::new(alloc);
    match value {
        Value::Array(pieces) => {
            for piece in pieces.as_slice() {
                push_piece(piece, &mut out)?;
            }
        }
        _ => push_piece(value, &mut out)?,
    }
    Ok(out)
}

/// A text whose bytes are UTF-8.
pub fn string(alloc: Global, value: &Value) -> Result<String, CaseFault> {
    let bytes = text(alloc, value)?;
    match String::from_utf8(bytes) {
        Ok(string) => Ok(string),
        Err(_) => Err(CaseFault::Value),
    }
}

/// The strings of a list.
pub fn strings(alloc: Global, value: &Value) -> Result<Vec<String>, CaseFault> {
    let mut all = Vec::new(alloc);
    for item in list(value)? {
        all.push(string(alloc, item)?)?;
    }
    Ok(all)
}
