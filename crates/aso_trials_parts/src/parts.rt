// The parts that are tried.
use crate::{bytes, devices, libraries, numbers, runs, tokens, trees, words};
use aso_trials_cases::CaseFault;
use serde_json::Value;
use std::alloc::Global;

/// What a case is a case of.
#[derive(Clone, Copy, Debug)]
pub enum Part {
    /// An unsigned number in groups of seven bits.
    Unsigned,
    /// Bytes of which no front spells a number.
    Front,
    /// A signed number in groups of seven bits.
    Signed,
    /// Numbers of a fixed width.
    Fixed,
    Library,
    Sink,
    Device,
    /// A text that may be an amount.
    Amount,
    Value,
    /// Two values and a sign between them.
    Arithmetic,
    /// Keys of a number of words.
    Words,
    /// A choice by the number of words.
    Width,
    /// Records that are folded to a run.
    Fold,
    /// Runs that are summed.
    Runs,
    Tree,
    Tokens,
    /// A text that may be a number.
    Number,
}

/// What a case of a part gives.
pub fn told(alloc: Global, part: Part, case: &Value) -> Result<String, CaseFault> {
    match part {
        Part::Unsigned => bytes::unsigned_told(alloc, case),
        Part::Front => bytes::front_told(alloc, case),
        Part::Signed => bytes::signed_told(alloc, case),
        Part::Fixed => bytes::fixed_told(alloc, case),
        Part::Library => libraries::library_told(alloc, case),
        Part::Sink => libraries::sink_told(alloc, case),
        Part::Device => devices::told(alloc, case),
        Part::Amount => numbers::amount_told(alloc, case),
        Part::Value => numbers::value_told(alloc, case),
        Part::Arithmetic => numbers::arithmetic_told(alloc, case),
        Part::Words => words::told(alloc, case),
        Part::Width => words::width_told(alloc, case),
        Part::Fold => runs::fold_told(alloc, case),
        Part::Runs => runs::sum_told(alloc, case),
        Part::Tree => trees::told(alloc, case),
        Part::Tokens => tokens::told(alloc, case),
        Part::Number => tokens::number_told(alloc, case),
    }
}
