// Numbers in bytes: how they are spelled, and what is taken from the front of bytes.
use crate::reading::unsigned;
use aso_bytes::{
    put_leb, put_u16, put_u32, put_u64, put_zig, take_leb, take_u16, take_u32, take_u64, take_zig,
};
use aso_trials_cases::{CaseFault, field, integer, list, number, text};
use serde_json::Value;
use std::alloc::{AllocError, Global};
use std::fmt::Write;

fn put_hex(bytes: &[u8], out: &mut String) -> Result<(), AllocError> {
    for byte in bytes {
        write!(out, " {byte:02x}")?;
    }
    Ok(())
}

// A number that was taken and of how many bytes, or nothing.
fn put_taken(taken: Option<(u128, usize)>, out: &mut String) -> Result<(), AllocError> {
    match taken {
        Some((number, size)) => write!(out, " {number} in {size}"),
        None => out.push_str(" nothing"),
    }
}

fn put_signed(taken: Option<(i128, usize)>, out: &mut String) -> Result<(), AllocError> {
    match taken {
        Some((number, size)) => write!(out, " {number} in {size}"),
        None => out.push_str(" nothing"),
    }
}

// At most so many of the bytes from a place on.
fn piece(bytes: &[u8], at: usize, size: usize) -> &[u8] {
    let rest = &bytes[at.min(bytes.len())..];
    &rest[..size.min(rest.len())]
}

/// The spelling of an unsigned number, and what is taken of it alone, without its last byte, and with a byte behind it.
pub fn unsigned_told(alloc: Global, case: &Value) -> Result<String, CaseFault> {
    let number = unsigned(field(case, "number")?)?;
    let mut bytes = Vec::new(alloc);
    put_leb(&mut bytes, number)?;
    let mut out = String::new(alloc);
    write!(out, "{number} is spelled")?;
    put_hex(&bytes, &mut out)?;
    out.push_str("; alone")?;
    put_taken(take_leb(&bytes), &mut out)?;
    out.push_str(", cut")?;
    let cut = bytes.len().saturating_sub(1);
    put_taken(take_leb(piece(&bytes, 0, cut)), &mut out)?;
    out.push_str(", followed")?;
    bytes.push(0x80)?;
    put_taken(take_leb(&bytes), &mut out)?;
    Ok(out)
}

/// What is taken from the front of bytes.
pub fn front_told(alloc: Global, case: &Value) -> Result<String, CaseFault> {
    let bytes = text(alloc, field(case, "bytes")?)?;
    let mut out = String::new(alloc);
    out.push_str("unsigned")?;
    put_taken(take_leb(&bytes), &mut out)?;
    out.push_str(", signed")?;
    put_signed(take_zig(&bytes), &mut out)?;
    Ok(out)
}

/// The spelling of a signed number, and what is taken of it as an unsigned and as a signed one.
pub fn signed_told(alloc: Global, case: &Value) -> Result<String, CaseFault> {
    let number = integer(field(case, "number")?)?;
    let mut bytes = Vec::new(alloc);
    put_zig(&mut bytes, number)?;
    let mut out = String::new(alloc);
    write!(out, "{number} is spelled")?;
    put_hex(&bytes, &mut out)?;
    out.push_str("; unsigned")?;
    put_taken(take_leb(&bytes), &mut out)?;
    out.push_str(", signed")?;
    put_signed(take_zig(&bytes), &mut out)?;
    Ok(out)
}

fn put_fixed(out: &mut Vec<u8>, size: u64, number: u64) -> Result<(), CaseFault> {
    match (size, u16::try_from(number), u32::try_from(number)) {
        (2, Ok(short), _) => Ok(put_u16(out, short)?),
        (4, _, Ok(middle)) => Ok(put_u32(out, middle)?),
        (8, _, _) => Ok(put_u64(out, number)?),
        _ => Err(CaseFault::Value),
    }
}

fn take_fixed(bytes: &[u8], size: u64) -> Option<(u128, usize)> {
    match size {
        2 => {
            let (number, size) = take_u16(bytes)?;
            Some((u128::from(number), size))
        }
        4 => {
            let (number, size) = take_u32(bytes)?;
            Some((u128::from(number), size))
        }
        _ => {
            let (number, size) = take_u64(bytes)?;
            Some((u128::from(number), size))
        }
    }
}

// Numbers of a fixed width, one behind the other.
fn joined(alloc: Global, numbers: &[Value]) -> Result<Vec<u8>, CaseFault> {
    let mut bytes = Vec::new(alloc);
    for item in numbers {
        let size = number(field(item, "size")?)?;
        put_fixed(&mut bytes, size, number(field(item, "number")?)?)?;
    }
    Ok(bytes)
}

/// The bytes of numbers of a fixed width, and what is taken at the place of each: from there on, and of a byte too few.
pub fn fixed_told(alloc: Global, case: &Value) -> Result<String, CaseFault> {
    let numbers = list(field(case, "numbers")?)?;
    let bytes = joined(alloc, numbers)?;
    let mut out = String::new(alloc);
    out.push_str("bytes")?;
    put_hex(&bytes, &mut out)?;
    let mut at = 0usize;
    for item in numbers {
        let size = number(field(item, "size")?)?;
        out.push_str(if at == 0 { ";" } else { "," })?;
        put_taken(take_fixed(piece(&bytes, at, bytes.len()), size), &mut out)?;
        out.push_str(" and cut")?;
        let cut = piece(&bytes, at, (size as usize).saturating_sub(1));
        put_taken(take_fixed(cut, size), &mut out)?;
        at = at.saturating_add(size as usize);
    }
    Ok(out)
}
