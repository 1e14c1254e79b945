// Outcomes in order, each with how often it comes one after the other.
use std::alloc::{AllocError, Global};
use std::fmt::Write;

fn put_times(outcome: &str, times: u64, out: &mut String) -> Result<(), AllocError> {
    if times == 0 {
        return Ok(());
    }
    write!(out, "\n  {times} x {outcome}")
}

/// A line for each outcome that differs from the one before.
pub fn counted(alloc: Global, outcomes: &[String]) -> Result<String, AllocError> {
    let mut out = String::new(alloc);
    let mut last = "";
    let mut times = 0u64;
    for outcome in outcomes {
        if outcome.as_str() != last {
            put_times(last, times, &mut out)?;
            last = outcome.as_str();
            times = 0;
        }
        times = times.saturating_add(1);
    }
    put_times(last, times, &mut out)?;
    Ok(out)
}
