// Commands of the program, over a library of one text, which is named `t`. The fields `library_fails` and `sink_fails` list the calls
// that fail there.
use crate::steps::{Played, numbers};
use aso_disk::{MemLibrary, MemSink, MemSlots};
use aso_num::Status;
use aso_top::run;
use aso_trials_cases::{CaseFault, optional, strings, text};
use serde_json::Value;
use std::alloc::Global;
use std::fmt::Write;
use std::str;

const LONGEST_TEXT: usize = 1_000_000;

// The step's text, or none.
fn text_of(alloc: Global, step: &Value) -> Result<Vec<u8>, CaseFault> {
    match optional(step, "text") {
        Some(value) => text(alloc, value),
        None => Ok(Vec::new(alloc)),
    }
}

fn library(alloc: Global, step: &Value) -> Result<MemLibrary, CaseFault> {
    let text = text_of(alloc, step)?;
    if text.len() > LONGEST_TEXT {
        return Err(CaseFault::Value);
    }
    let names = vec![in alloc; String::from_str(alloc, "t")?]?;
    let texts = vec![in alloc; text]?;
    let fails = numbers(alloc, step, "library_fails")?;
    Ok(MemLibrary::new(alloc, names, texts, fails))
}

/// A status, and behind it the text that was printed.
pub fn answer(alloc: Global, status: Status, printed: &[u8]) -> Result<String, CaseFault> {
    let mut out = format!(in alloc; "{status:?}\n")?;
    match str::from_utf8(printed) {
        Ok(printed) => out.push_str(printed)?,
        Err(_) => return Err(CaseFault::Value),
    }
    Ok(out)
}

/// What a command prints and ends with.
pub fn ran(
    alloc: Global,
    words: &Value,
    step: &Value,
    slots: MemSlots,
) -> Result<Played, CaseFault> {
    let words = strings(alloc, words)?;
    let mut slots = slots;
    let mut library = library(alloc, step)?;
    let mut out = MemSink::new(alloc, numbers(alloc, step, "sink_fails")?);
    let status = run(alloc, &words, &mut slots, &mut library, &mut out);
    Ok(Played {
        told: answer(alloc, status, out.bytes())?,
        slots,
    })
}
