// Outcomes of numbered trials: each on one line, with the first and the last of the numbers that follow each other and have it.
use crate::shown::put_escaped;
use std::alloc::AllocError;
use std::fmt::Write;

/// What the trial of a number gave.
#[derive(Drop)]
pub struct Outcome {
    pub number: u64,
    pub text: String,
}

fn is_same(outcome: &Outcome, next: Option<&Outcome>) -> bool {
    match next {
        Some(next) => next.text.as_str() == outcome.text.as_str(),
        None => false,
    }
}

fn put_outcome(
    head: &str,
    first: u64,
    outcome: &Outcome,
    out: &mut String,
) -> Result<(), AllocError> {
    write!(out, "  {head} {first}")?;
    if first != outcome.number {
        let last = outcome.number;
        write!(out, "-{last}")?;
    }
    out.push_str(": ")?;
    put_escaped(outcome.text.as_str(), out)?;
    out.push('\n')
}

/// The outcomes, each behind a head.
pub fn put_outcomes(head: &str, all: &[Outcome], out: &mut String) -> Result<(), AllocError> {
    let mut begun = None;
    for (place, outcome) in all.iter().enumerate() {
        let first = begun.unwrap_or(outcome.number);
        if is_same(outcome, all.get(place.wrapping_add(1))) {
            begun = Some(first);
        } else {
            put_outcome(head, first, outcome, out)?;
            begun = None;
        }
    }
    Ok(())
}
