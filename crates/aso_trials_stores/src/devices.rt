// Steps over a device in memory. A case has the `size` of its device, if not that of the two areas of a catalog, `parts` that stand on
// it at places, and `steps`, each over the bytes that the one before left; `fails` lists the calls of a step that fail, counted from 0.
use crate::calls::put_calls_of;
use crate::shown::put_lines;
use crate::steps::{Played, numbers, play, put_head};
use crate::sweeps::{put_crashes, put_failures};
use aso_disk::MemSlots;
use aso_trials_cases::{CaseFault, field, list, number, optional, text};
use serde_json::Value;
use std::alloc::Global;

const TWO_AREAS: u64 = 262_144;

// The record of a device has room for so many calls.
const ROOM: usize = 1000;

/// Writes bytes over those at a place, as far as there are any.
pub fn put_over(all: &mut Vec<u8>, at: u64, bytes: &[u8]) {
    for (offset, byte) in bytes.iter().enumerate() {
        if let Some(place) = all.get_mut((at as usize).wrapping_add(offset)) {
            *place = *byte;
        }
    }
}

fn put_part(alloc: Global, part: &Value, bytes: &mut Vec<u8>) -> Result<(), CaseFault> {
    match list(part)? {
        [place, piece] => {
            put_over(bytes, number(place)?, &text(alloc, piece)?);
            Ok(())
        }
        _ => Err(CaseFault::Value),
    }
}

// The bytes that a case begins with.
fn first_bytes(alloc: Global, case: &Value) -> Result<Vec<u8>, CaseFault> {
    let size = match optional(case, "size") {
        Some(size) => number(size)?,
        None => TWO_AREAS,
    };
    let mut bytes = vec![in alloc; 0u8; size as usize]?;
    if let Some(parts) = optional(case, "parts") {
        for part in list(parts)? {
            put_part(alloc, part, &mut bytes)?;
        }
    }
    Ok(bytes)
}

/// A device that holds these bytes.
pub fn device(alloc: Global, bytes: &[u8], fails: Vec<u64>) -> Result<MemSlots, CaseFault> {
    let bytes = Vec::from_slice(alloc, bytes)?;
    Ok(MemSlots::new(alloc, bytes, ROOM, fails)?)
}

// What a step gives, and the bytes that it leaves.
fn put_step(
    alloc: Global,
    step: &Value,
    bytes: &[u8],
    out: &mut String,
) -> Result<Vec<u8>, CaseFault> {
    let fails = numbers(alloc, step, "fails")?;
    let Played { mut told, slots } = play(alloc, step, device(alloc, bytes, fails)?)?;
    put_calls_of(step, &slots, &mut told)?;
    put_lines(told.as_str(), out)?;
    put_crashes(alloc, step, &slots, out)?;
    Ok(Vec::from_slice(alloc, slots.bytes())?)
}

/// What the steps of a case give.
pub fn given(alloc: Global, case: &Value) -> Result<String, CaseFault> {
    let mut out = String::new(alloc);
    let mut bytes = first_bytes(alloc, case)?;
    for step in list(field(case, "steps")?)? {
        put_head(alloc, step, &mut out)?;
        match optional(step, "each_fails") {
            Some(calls) => put_failures(alloc, step, calls, &bytes, &mut out)?,
            None => bytes = put_step(alloc, step, &bytes, &mut out)?,
        }
    }
    Ok(out)
}
