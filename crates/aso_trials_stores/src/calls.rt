// The calls of a device: each with the place and the size, and a write of one byte with that byte.
use aso_disk::{Call, MemSlots};
use aso_trials_cases::{CaseFault, number, optional};
use serde_json::Value;
use std::alloc::AllocError;
use std::fmt::Write;

fn put_done(done: bool, out: &mut String) -> Result<(), AllocError> {
    if done {
        Ok(())
    } else {
        out.push_str(" failed")
    }
}

fn put_write(at: u64, bytes: &[u8], done: bool, out: &mut String) -> Result<(), AllocError> {
    match bytes {
        [byte] => write!(out, "write {at} byte {byte}")?,
        _ => {
            let size = bytes.len();
            write!(out, "write {at} {size} bytes")?;
        }
    }
    put_done(done, out)
}

fn put_call(call: &Call, out: &mut String) -> Result<(), AllocError> {
    match call {
        Call::Size => out.push_str("size"),
        Call::Read { at, size } => write!(out, "read {at} {size} bytes"),
        Call::Write { at, bytes, done } => put_write(*at, bytes, *done, out),
        Call::Sync { done } => {
            out.push_str("sync")?;
            put_done(*done, out)
        }
    }
}

fn put_calls(slots: &MemSlots, from: u64, out: &mut String) -> Result<(), AllocError> {
    let mut before = "calls: ";
    for (place, call) in slots.calls().iter().enumerate() {
        if place as u64 >= from {
            out.push_str(before)?;
            put_call(call, out)?;
            before = ", ";
        }
    }
    out.push('\n')
}

/// The calls from the one on that the step's `calls_from` names, where it has that.
pub fn put_calls_of(step: &Value, slots: &MemSlots, out: &mut String) -> Result<(), CaseFault> {
    match optional(step, "calls_from") {
        Some(from) => Ok(put_calls(slots, number(from)?, out)?),
        None => Ok(()),
    }
}
