// A device in memory, of which chosen calls fail: its answers, its record, and what a crash leaves. It is called through its bound, also
// where it is lent.
ghost use Rattle.std.specs.Prelude.{◌≡◌, length};
ghost use Rattle.aso_disk.specs.MemSlots.{start_of};

use crate::reading::{numbers, spelled};
use aso_disk::{Call, Failed, MemSlots, Slots};
use aso_trials_cases::{CaseFault, field, is_set, list, number, optional, text};
use serde_json::Value;
use std::alloc::Global;
use std::fmt::Write;

// A call as it is noted where it is done.
fn call(alloc: Global, case: &Value) -> Result<Call, CaseFault> {
    if let Some(bytes) = optional(case, "write") {
        let bytes = text(alloc, bytes)?;
        let at = number(field(case, "at")?)?;
        return Ok(Call::Write {
            at,
            bytes,
            done: true,
        });
    }
    if let Some(size) = optional(case, "read") {
        let at = number(field(case, "at")?)?;
        let size = number(size)?;
        return Ok(Call::Read { at, size });
    }
    if is_set(case, "sync") {
        Ok(Call::Sync { done: true })
    } else {
        Ok(Call::Size)
    }
}

fn put_done(done: bool, out: &mut String) -> Result<(), CaseFault> {
    if !done {
        out.push_str(", failed")?;
    }
    Ok(())
}

fn put_call(call: &Call, out: &mut String) -> Result<(), CaseFault> {
    match call {
        Call::Size => Ok(out.push_str("size")?),
        Call::Read { at, size } => Ok(write!(out, "read {size} at {at}")?),
        Call::Write { at, bytes, done } => {
            write!(out, "write {} at {at}", spelled(bytes)?)?;
            put_done(*done, out)
        }
        Call::Sync { done } => {
            out.push_str("sync")?;
            put_done(*done, out)
        }
    }
}

fn put_outcome(outcome: Result<(), Failed>, out: &mut String) -> Result<(), CaseFault> {
    match outcome {
        Ok(()) => Ok(out.push_str(": done\n")?),
        Err(Failed) => Ok(out.push_str(": failed\n")?),
    }
}

fn size<C: Slots>(slots: &mut C, out: &mut String) -> Result<(), CaseFault> {
    match slots.size() {
        Ok(size) => Ok(writeln!(out, ": {size}")?),
        Err(Failed) => Ok(out.push_str(": failed\n")?),
    }
}

fn read<C: Slots>(
    alloc: Global,
    slots: &mut C,
    extent: u64,
    at: u64,
    size: u64,
    out: &mut String,
) -> Result<(), CaseFault>
    requires { extent ≡ C.extent slots.old }
{
    if size > extent || at > extent - size {
        return Err(CaseFault::Value);
    }
    let mut into = vec![in alloc; 0u8; size as usize]?;
    match slots.read(at, into.as_mut_slice()) {
        Ok(()) => Ok(writeln!(out, ": {}", spelled(&into)?)?),
        Err(Failed) => Ok(out.push_str(": failed\n")?),
    }
}

fn write<C: Slots>(
    slots: &mut C,
    extent: u64,
    at: u64,
    bytes: &[u8],
    out: &mut String,
) -> Result<(), CaseFault>
    requires { extent ≡ C.extent slots.old }
{
    let size = bytes.len() as u64;
    if size > extent || at > extent - size {
        return Err(CaseFault::Value);
    }
    put_outcome(slots.write(at, bytes), out)
}

// Makes a call, and prints the answer.
fn make<C: Slots>(
    alloc: Global,
    slots: &mut C,
    extent: u64,
    call: &Call,
    out: &mut String,
) -> Result<(), CaseFault>
    requires { extent ≡ C.extent slots.old }
{
    match call {
        Call::Size => size(slots, out),
        Call::Read { at, size } => read(alloc, slots, extent, *at, *size, out),
        Call::Write { at, bytes, .. } => write(slots, extent, *at, bytes, out),
        Call::Sync { .. } => put_outcome(slots.sync(), out),
    }
}

fn extent(slots: &MemSlots) -> u64
    ensures { result ≡ length (start_of slots.now) }
{
    slots.bytes().len() as u64
}

fn make_case(
    alloc: Global,
    slots: &mut MemSlots,
    case: &Value,
    out: &mut String,
) -> Result<(), CaseFault> {
    let call = call(alloc, case)?;
    put_call(&call, out)?;
    let extent = extent(slots);
    if is_set(case, "lent") {
        out.push_str(", lent")?;
        let mut lent = slots;
        make(alloc, &mut lent, extent, &call, out)
    } else {
        make(alloc, slots, extent, &call, out)
    }
}

fn put_record(slots: &MemSlots, out: &mut String) -> Result<(), CaseFault> {
    out.push_str("record:")?;
    for (place, call) in slots.calls().iter().enumerate() {
        out.push_str(if place == 0 { " " } else { "; " })?;
        put_call(call, out)?;
    }
    Ok(out.push('\n')?)
}

/// What a device answers to calls, the record that it keeps of them, and the images that crashes leave.
pub fn told(alloc: Global, case: &Value) -> Result<String, CaseFault> {
    let bytes = text(alloc, field(case, "bytes")?)?;
    let room = number(field(case, "room")?)? as usize;
    let fail = numbers(alloc, field(case, "fail")?)?;
    let mut slots = MemSlots::new(alloc, bytes, room, fail)?;
    let mut out = String::new(alloc);
    for call in list(field(case, "calls")?)? {
        make_case(alloc, &mut slots, call, &mut out)?;
    }
    writeln!(out, "holds {}", spelled(slots.bytes())?)?;
    put_record(&slots, &mut out)?;
    for crash in list(field(case, "crashes")?)? {
        let at = number(field(crash, "call")?)?;
        let pick = number(field(crash, "pick")?)?;
        let image = slots.crash(at, pick)?;
        let left = spelled(image.bytes())?;
        writeln!(out, "crash in call {at}, pick {pick}: {left}")?;
    }
    Ok(out)
}
