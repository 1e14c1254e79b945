// A library and a sink in memory, of which chosen calls fail. Each is called through its bound, also where it is lent.
ghost use Rattle.std.specs.Prelude.{All, IfOk};
ghost use Rattle.aso_disk.specs.Texts.{IsShort};

use crate::reading::{numbers, spelled};
use aso_disk::{Library, MemLibrary, MemSink, Sink, Trouble};
use aso_trials_cases::{CaseFault, field, is_set, list, number, string, strings, text};
use serde_json::Value;
use std::alloc::{AllocError, Global};
use std::fmt::Write;

// The texts of a library.
fn texts(alloc: Global, value: &Value) -> Result<Vec<Vec<u8>>, CaseFault>
    ensures { IfOk result (λ texts. All IsShort texts.items) }
{
    let mut all = Vec::new(alloc);
    for item in list(value)? {
        let text = text(alloc, item)?;
        if text.len() >= 4_294_967_296 {
            return Err(CaseFault::Value);
        }
        all.push(text)?;
    }
    Ok(all)
}

fn asked<L: Library>(library: &mut L, name: &str) -> Result<Option<Vec<u8>>, Trouble> {
    library.text(name)
}

fn asked_lent(library: &mut MemLibrary, name: &str) -> Result<Option<Vec<u8>>, Trouble> {
    let mut lent = library;
    asked(&mut lent, name)
}

fn put_found(found: Result<Option<Vec<u8>>, Trouble>, out: &mut String) -> Result<(), CaseFault> {
    match found {
        Ok(Some(text)) => Ok(writeln!(out, ": {}", spelled(&text)?)?),
        Ok(None) => Ok(out.push_str(": none\n")?),
        Err(Trouble::Failed) => Ok(out.push_str(": failed\n")?),
        Err(Trouble::NoMemory) => Err(CaseFault::NoMemory),
    }
}

/// What a library of named texts answers to names.
pub fn library_told(alloc: Global, case: &Value) -> Result<String, CaseFault> {
    let names = strings(alloc, field(case, "names")?)?;
    let texts = texts(alloc, field(case, "texts")?)?;
    let fail = numbers(alloc, field(case, "fail")?)?;
    let mut library = MemLibrary::new(alloc, names, texts, fail);
    let mut out = String::new(alloc);
    for ask in list(field(case, "asks")?)? {
        let name = string(alloc, field(ask, "name")?)?;
        out.push_str(name.as_str())?;
        let found = if is_set(ask, "lent") {
            out.push_str(", lent")?;
            asked_lent(&mut library, name.as_str())
        } else {
            asked(&mut library, name.as_str())
        };
        put_found(found, &mut out)?;
    }
    Ok(out)
}

// Puts the bytes so many times, up to the first failure.
fn put_times<K: Sink>(sink: &mut K, bytes: &[u8], times: u64) -> Result<(), Trouble> {
    for _ in 0..times {
        sink.put(bytes)?;
    }
    Ok(())
}

fn put_lent(sink: &mut MemSink, bytes: &[u8], times: u64) -> Result<(), Trouble> {
    let mut lent = sink;
    put_times(&mut lent, bytes, times)
}

fn put_outcome(outcome: Result<(), Trouble>, out: &mut String) -> Result<(), CaseFault> {
    match outcome {
        Ok(()) => Ok(out.push_str(": done")?),
        Err(Trouble::Failed) => Ok(out.push_str(": failed")?),
        Err(Trouble::NoMemory) => Err(CaseFault::NoMemory),
    }
}

/// What a sink answers to puts, and what it holds after each.
pub fn sink_told(alloc: Global, case: &Value) -> Result<String, CaseFault> {
    let mut sink = MemSink::new(alloc, numbers(alloc, field(case, "fail")?)?);
    let mut out = String::new(alloc);
    for put in list(field(case, "puts")?)? {
        let bytes = text(alloc, field(put, "bytes")?)?;
        let times = number(field(put, "times")?)?;
        write!(out, "{} x {times}", spelled(&bytes)?)?;
        let outcome = if is_set(put, "lent") {
            out.push_str(", lent")?;
            put_lent(&mut sink, &bytes, times)
        } else {
            put_times(&mut sink, &bytes, times)
        };
        put_outcome(outcome, &mut out)?;
        writeln!(out, ", holds {}", spelled(sink.bytes())?)?;
    }
    Ok(out)
}
