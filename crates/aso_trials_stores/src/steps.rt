// A step over a device: `command`, the words of a command; `catalog`, amounts that are published one behind the other over the catalog
// that is opened; or `making`, the text of the outline that a store is made of.
use crate::{catalogs, commands, makings};
use aso_disk::MemSlots;
use aso_trials_cases::{CaseFault, field, list, number, optional, strings};
use serde_json::Value;
use std::alloc::Global;
use std::fmt::Write;

/// What a step printed or answered, and the device behind it.
#[derive(Drop)]
pub struct Played {
    pub told: String,
    pub slots: MemSlots,
}

/// Plays a step.
pub fn play(alloc: Global, step: &Value, slots: MemSlots) -> Result<Played, CaseFault> {
    if let Some(words) = optional(step, "command") {
        return commands::ran(alloc, words, step, slots);
    }
    if let Some(amounts) = optional(step, "catalog") {
        return catalogs::published(alloc, amounts, slots);
    }
    makings::made(alloc, field(step, "making")?, slots)
}

// The fields that say which calls fail.
const FAILING: [&str; 4] = ["fails", "library_fails", "sink_fails", "each_fails"];

fn put_failing(step: &Value, out: &mut String) -> Result<(), CaseFault> {
    for name in FAILING {
        if let Some(calls) = optional(step, name) {
            write!(out, ", {name} {calls}")?;
        }
    }
    Ok(())
}

fn put_words(alloc: Global, words: &Value, out: &mut String) -> Result<(), CaseFault> {
    for word in strings(alloc, words)?.as_slice() {
        out.push(' ')?;
        out.push_str(word.as_str())?;
    }
    Ok(())
}

/// The line above what a step gives.
pub fn put_head(alloc: Global, step: &Value, out: &mut String) -> Result<(), CaseFault> {
    out.push('>')?;
    if let Some(words) = optional(step, "command") {
        put_words(alloc, words, out)?;
    } else if let Some(amounts) = optional(step, "catalog") {
        write!(out, " catalog {amounts}")?;
    } else {
        out.push_str(" making")?;
    }
    put_failing(step, out)?;
    Ok(out.push('\n')?)
}

/// The numbers of a field, or none where it is missing.
pub fn numbers(alloc: Global, case: &Value, name: &str) -> Result<Vec<u64>, CaseFault> {
    let mut all = Vec::new(alloc);
    if let Some(given) = optional(case, name) {
        for value in list(given)? {
            all.push(number(value)?)?;
        }
    }
    Ok(all)
}
