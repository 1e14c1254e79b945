// Steps whose calls fail one after the other, and crashes within each call. A step with `each_fails`, the first and the last of the calls,
// is played once for each of them and leaves the device as it was; `then` is a step over what each of these leaves, and `crash` a call
// and a pick: `then` over what a crash there leaves. The field `crashes` has `calls`, `picks` and `then` of its own.
use crate::calls::put_calls_of;
use crate::devices::device;
use crate::outcomes::{Outcome, put_outcomes};
use crate::steps::{Played, numbers, play};
use aso_disk::MemSlots;
use aso_trials_cases::{CaseFault, field, list, number, optional};
use serde_json::Value;
use std::alloc::Global;

fn pair(value: &Value) -> Result<(u64, u64), CaseFault> {
    match list(value)? {
        [first, second] => Ok((number(first)?, number(second)?)),
        _ => Err(CaseFault::Value),
    }
}

// What a step gives over a device, behind a word.
fn put_after(
    alloc: Global,
    word: &str,
    step: &Value,
    slots: MemSlots,
    out: &mut String,
) -> Result<(), CaseFault> {
    let played = play(alloc, step, slots)?;
    out.push_str(word)?;
    Ok(out.push_str(played.told.as_str())?)
}

// What follows a step of which a call failed.
fn put_follow(
    alloc: Global,
    step: &Value,
    slots: &MemSlots,
    out: &mut String,
) -> Result<(), CaseFault> {
    let Some(then) = optional(step, "then") else {
        return Ok(());
    };
    let left = device(alloc, slots.bytes(), Vec::new(alloc))?;
    put_after(alloc, "then ", then, left, out)?;
    if let Some(crash) = optional(step, "crash") {
        let (call, pick) = pair(crash)?;
        let image = slots.crash(call, pick)?;
        put_after(alloc, "after a crash ", then, image, out)?;
    }
    Ok(())
}

// What a step gives of which this call fails.
fn failed(alloc: Global, step: &Value, call: u64, bytes: &[u8]) -> Result<String, CaseFault> {
    let slots = device(alloc, bytes, vec![in alloc; call]?)?;
    let Played { mut told, slots } = play(alloc, step, slots)?;
    put_calls_of(step, &slots, &mut told)?;
    put_follow(alloc, step, &slots, &mut told)?;
    Ok(told)
}

/// What a step gives where each call of some fails.
pub fn put_failures(
    alloc: Global,
    step: &Value,
    calls: &Value,
    bytes: &[u8],
    out: &mut String,
) -> Result<(), CaseFault> {
    let (first, last) = pair(calls)?;
    let mut all = Vec::new(alloc);
    for call in first..last.saturating_add(1) {
        let text = failed(alloc, step, call, bytes)?;
        all.push(Outcome { number: call, text })?;
    }
    Ok(put_outcomes("fails", &all, out)?)
}

// What is shown of the images that crashes within some calls leave, by one pick.
fn put_images(
    alloc: Global,
    crashes: &Value,
    pick: u64,
    slots: &MemSlots,
    out: &mut String,
) -> Result<(), CaseFault> {
    let (first, last) = pair(field(crashes, "calls")?)?;
    let then = field(crashes, "then")?;
    let mut all = Vec::new(alloc);
    for call in first..last.saturating_add(1) {
        let text = play(alloc, then, slots.crash(call, pick)?)?.told;
        all.push(Outcome { number: call, text })?;
    }
    let head = format!(in alloc; "pick {pick}, crash in")?;
    Ok(put_outcomes(head.as_str(), &all, out)?)
}

/// What is shown of the images that crashes within a step leave, where it has crashes.
pub fn put_crashes(
    alloc: Global,
    step: &Value,
    slots: &MemSlots,
    out: &mut String,
) -> Result<(), CaseFault> {
    let Some(crashes) = optional(step, "crashes") else {
        return Ok(());
    };
    for pick in numbers(alloc, crashes, "picks")? {
        put_images(alloc, crashes, pick, slots, out)?;
    }
    Ok(())
}
